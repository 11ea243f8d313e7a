// The bests so far, as the work room holds them: the weight and the line of the best of each pair.
ghost use Rattle.std.specs.Prelude.{◌≡◌, List, ℕ, suc, ◌+◌, ◌*◌, ◌≤◌, ◌<◌, length, get_or, pos, IfSome};
ghost use Rattle.chain.specs.Lines.{Line};
ghost use Rattle.chain.specs.Reasons.{Offer};
ghost use Rattle.offers.specs.Work.{spot_of, part_of, Known};
ghost use Rattle.offers.specs.Drafts.{Offers, Adds, Notable, Plain};

use crate::Draft;
use cell::Word;
use rules::Side;

// Where the cell of a pair stands in one of the four tables.
pub fn spot(n: usize, table: usize, x: u32, y: u32) -> usize
    requires { (x < n) × (y < n) × (n ≤ 64) × (table < 4) }
    ensures { result ≡ spot_of n table x y }
{
    table * (n * n) + (x as usize * n + y as usize)
}

// Which table holds the weights of a side; the numbers of the lines stand in the next one.
pub fn weights_of(side: Side) -> usize
    ensures { result ≡ part_of side }
{
    match side {
        Side::Strict => 0,
        Side::Open => 2,
    }
}

// The work room of a plan with n points, lent to be read. That they are few, and that there are four tables, is part of the type.
#[derive(Clone, Copy)]
pub struct Bests<'a> {
    pub n: usize,
    pub cells: &'a [i64],
    pub ghost few: { n ≤ 64 },
    pub ghost room: { 4 * (n * n) ≤ length cells.now },
}

impl<'a> Bests<'a> {
    // The weight of the pair's best.
    pub fn weight(self, side: Side, x: u32, y: u32) -> i64
        requires { (x < self.n) × (y < self.n) }
        ensures { result ≡ get_or self.entry.cells.now (spot_of self.entry.n (part_of side) x y) (pos 0) }
    {
        self.cells[spot(self.n, weights_of(side), x, y)]
    }

    // The number of its line.
    pub fn line(self, side: Side, x: u32, y: u32) -> u64
        requires { (x < self.n) × (y < self.n) × Known self.n self.cells.now }
        ensures { (v : ℕ) → get_or self.entry.cells.now (spot_of self.entry.n (suc (part_of side)) x y) (pos 0) ≡ pos v → result ≡ v }
    {
        self.cells[spot(self.n, weights_of(side) + 1, x, y)].up()
    }
}

// What a try of an ordinary line adds: the line, if it beats the strict pair's best.
pub fn kept(work: Bests, d: Draft) -> Option<Draft>
    requires { Plain work.n d }
    ensures { ((offer : List Line → Offer) → Offers work.entry.n work.entry.cells.now offer (Some d) → Adds work.entry.n work.entry.cells.now offer result) × IfSome result (Notable work.entry.n) }
{
    let best = work.weight(Side::Strict, d.from, d.to);
    d.weight.below(best).then_some(d)
}
