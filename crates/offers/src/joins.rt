// Joins of two best lines of one side.
ghost use Rattle.std.specs.Prelude.{◌≡◌, true, List, ◌≤◌, ◌<◌};
ghost use Rattle.chain.specs.Lines.{Line, best};
ghost use Rattle.chain.specs.Reasons.{line, joined};
ghost use Rattle.offers.specs.Kinds.{join_number};
ghost use Rattle.offers.specs.Work.{part_of, Known, Standing};
ghost use Rattle.offers.specs.Drafts.{made_of, Notable, lowers_by, NextJoin};

use crate::bests::Bests;
use crate::{Draft, Kind};
use cell::Word;
use rules::Side;

// The first column from z on at which a join by the middle y lowers row x, or none; with the cell x to y taken out of the loop.
pub fn next_join(work: Bests, side: Side, y: u32, x: u32, z: u32) -> Option<u32>
    requires { (x < work.n) × (y < work.n) × (z ≤ work.n) × Known work.n work.cells.now }
    ensures { NextJoin work.entry.n work.entry.cells.now (part_of side) y x z result }
{
    let a = work.weight(side, x, y);
    if a.is_mark() {
        return None;
    }
    for at in z..work.n as u32 {
        let b = work.weight(side, y, at);
        if a.add(b).below(work.weight(side, x, at)) {
            return Some(at);
        }
    }
    None
}

// The join of the best lines from x to y and from y to z.
pub fn join_draft(work: Bests, side: Side, y: u32, x: u32, z: u32) -> Draft
    requires { (x < work.n) × (y < work.n) × (z < work.n) × Known work.n work.cells.now × (lowers_by work.n work.cells.now (part_of side) y x z ≡ true) }
    ensures { ((ls : List Line) → Standing work.entry.n ls work.entry.cells.now → joined (join_number side) x z (best side x y ls) (best side y z ls) ≡ line (made_of result)) × Notable work.entry.n result }
{
    let w = work.weight(side, x, y).add(work.weight(side, y, z));
    Draft {
        kind: Kind::join_of(side),
        from: x,
        to: z,
        weight: w,
        first: work.line(side, x, y),
        second: work.line(side, y, z),
    }
}
