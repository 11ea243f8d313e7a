// A reason list as a lent slice of line structs, and thin readers of it (document 02, item 4).
// `line_of` and `gather` read the six lists of fields that a list of reasons is written to.
#![tactic(auto)]

ghost use Rattle.std.specs.Prelude.{◌≡◌, min, set, unwrap_or};
ghost use Rattle.lines.specs.Reads.{no_line, line_at, listed, count_of, line_in, Gathered};

// A line of a reason list: its kind (1 to 9, 0 for no line), its two points, its weight and its two references.
#[derive(Clone, Copy, Debug, PartialEq, Eq)]
pub struct Line {
    pub kind: u32,
    pub from: u32,
    pub to: u32,
    pub weight: i64,
    pub first: u32,
    pub second: u32,
}

// A line of no kind.
const NO_LINE: Line = Line {
    kind: 0,
    from: 0,
    to: 0,
    weight: 0,
    first: 0,
    second: 0,
};

// A reason list that is lent as six lists of fields. The list ends with the shortest.
#[derive(Clone, Copy)]
struct Columns<'a> {
    kinds: &'a [u32],
    froms: &'a [u32],
    tos: &'a [u32],
    weights: &'a [i64],
    firsts: &'a [u32],
    seconds: &'a [u32],
}

impl<'a> Columns<'a> {
    // Line i, where there is one.
    #[tactic(auto, using(crate::proofs::LinesRead::listed_past))]
    fn line(&self, at: usize) -> Option<Line>
        ensures { unwrap_or result no_line ≡ line_in self.now at }
    {
        Some(Line {
            kind: *self.kinds.get(at)?,
            from: *self.froms.get(at)?,
            to: *self.tos.get(at)?,
            weight: *self.weights.get(at)?,
            first: *self.firsts.get(at)?,
            second: *self.seconds.get(at)?,
        })
    }

    // How many lines the six lists hold together.
    fn count(&self) -> usize
        ensures { result ≡ count_of self.now }
    {
        self.kinds
            .len()
            .min(self.froms.len())
            .min(self.tos.len())
            .min(self.weights.len())
            .min(self.firsts.len())
            .min(self.seconds.len())
    }
}

// Line i of a list that is lent as six lists of fields, as a struct. The list ends with the shortest; past it a line of no kind.
pub fn line_of(
    kinds: &[u32],
    froms: &[u32],
    tos: &[u32],
    weights: &[i64],
    firsts: &[u32],
    seconds: &[u32],
    at: usize,
) -> Line
    ensures { result ≡ listed kinds.now froms.now tos.now weights.now firsts.now seconds.now at }
{
    let columns = Columns {
        kinds,
        froms,
        tos,
        weights,
        firsts,
        seconds,
    };
    columns.line(at).unwrap_or(NO_LINE)
}

// Line i of the list; a line past the end reads as a line of no kind.
pub fn line_at(lines: &[Line], i: u32) -> Line
    ensures { result ≡ line_at lines.now i }
{
    lines.get(i as usize).copied().unwrap_or(NO_LINE)
}

// Puts a line at place i of the list; past the end nothing is put.
// It tests the place, since what is put through a slice's `get_mut` is not known to a proof yet.
pub fn put_line(lines: &mut [Line], i: u32, line: Line)
    ensures { lines.new ≡ set lines.old i line }
{
    let at = i as usize;
    if at < lines.len() {
        lines[at] = line;
    }
}

// Writes a list that is lent as six lists of fields to a slice of line structs: as many lines as the shortest of the seven has, which is the answer.
// The lines past them stay.
pub fn gather(
    kinds: &[u32],
    froms: &[u32],
    tos: &[u32],
    weights: &[i64],
    firsts: &[u32],
    seconds: &[u32],
    lines: &mut [Line],
) -> usize
    ensures { Gathered kinds.now froms.now tos.now weights.now firsts.now seconds.now lines.old lines.new result }
{
    let columns = Columns {
        kinds,
        froms,
        tos,
        weights,
        firsts,
        seconds,
    };
    let n = columns.count().min(lines.len());
    for at in 0..n {
        lines[at] = columns.line(at).unwrap_or(NO_LINE);
    }
    n
}
