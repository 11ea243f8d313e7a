// The kinds of lines.
ghost use Rattle.std.specs.Prelude.{◌≡◌};

use rules::Side;

// What a line follows from.
#[derive(Clone, Copy, PartialEq, Eq)]
pub enum Kind {
    // what is given
    Start,
    Limit,
    Longest,
    Shortest,
    LowerCase,
    // the rules
    Join,
    Lower,
    Upper,
    OpenJoin,
}

impl Kind {
    ghost use Rattle.rules.specs.declared.Side.TheVariants.{Strict};
    ghost use Rattle.chain.specs.Lines.{counts};
    ghost use Rattle.offers.specs.Kinds.{kind_number, join_number};

    // What joins of a side's bests are.
    pub fn join_of(side: Side) -> Kind
        ensures { kind_number result ≡ join_number side }
    {
        match side {
            Side::Strict => Kind::Join,
            Side::Open => Kind::OpenJoin,
        }
    }

    // Its number in the paper.
    pub fn number(self) -> u32
        ensures { result ≡ kind_number self }
    {
        match self {
            Kind::Start => 1,
            Kind::Limit => 2,
            Kind::Longest => 3,
            Kind::Shortest => 4,
            Kind::LowerCase => 5,
            Kind::Join => 6,
            Kind::Lower => 7,
            Kind::Upper => 8,
            Kind::OpenJoin => 9,
        }
    }

    // Whether such a line counts for its strict pair: not if it is for open pairs alone.
    pub fn is_strict(self) -> bool
        ensures { result ≡ counts Strict (kind_number self) }
    {
        match self {
            Kind::LowerCase | Kind::OpenJoin => false,
            _ => true,
        }
    }
}
