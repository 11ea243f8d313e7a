// One step of the working-out, read from the work room and the file: nothing is written here.
ghost use Rattle.std.specs.Prelude.{◌≡◌, Some, true, List, ℕ, ◌+◌, ◌≤◌, ◌<◌};
ghost use Rattle.rules.specs.Plan.{Plan};
ghost use Rattle.plan.specs.Layout.{plan_of, link_at};
ghost use Rattle.chain.specs.Lines.{Line};
ghost use Rattle.chain.specs.Reasons.{line, link_offer, always};
ghost use Rattle.offers.specs.Kinds.{kind_number, join_number};
ghost use Rattle.offers.specs.Drafts.{made_of, Notable};
ghost use Rattle.offers.specs.Work.{Known};
ghost use Rattle.reasons.specs.Stands.{part_number, place_of, next_of, Placed, TryLeft, outer_of, middle_of, inner_of};
ghost use Rattle.reasons.specs.Stepping.{Tried, Stepped, join_part};

use crate::places::{inner, middle, outer};
use crate::{Part, Step, Turns};
use offers::{
    Bests, Draft, join_draft, kept, limit_draft, longest_draft, lower_case_draft, lower_draft,
    next_join, shortest_draft, start_draft, upper_draft,
};
use reader::SoundPlan;
use rules::Side;

// A step of joins: the next column whose cell one lowers, or the end of the row.
fn join_step(work: Bests, side: Side, at: Turns) -> Step
    requires { (at.a < work.n) × (at.b < work.n) × (at.c < work.n) × Known work.n work.cells.now }
    ensures { (p : Plan) (g : ℕ) → p.points ≡ work.entry.n → Stepped p g work.entry.cells.now (place_of (join_part side) at) result.line (next_of (join_part side) result.next) }
{
    match next_join(work, side, at.a, at.b, at.c) {
        Some(z) => Step {
            line: Some(join_draft(work, side, at.a, at.b, z)),
            next: Some(Turns {
                a: at.a,
                b: at.b,
                c: z + 1,
            }),
        },
        None => Step {
            line: None,
            next: Some(Turns {
                a: at.a,
                b: at.b,
                c: work.n as u32,
            }),
        },
    }
}

// The lines of link i: the longest, the shortest, the lower-case one.
fn link_line(plan: SoundPlan, i: u32, c: u32) -> Draft
    requires { (i < plan.k) × (c < 3) }
    ensures { ((ls : List Line) → link_offer i (link_at plan.entry.file.now plan.entry.m i) c ls ≡ line (made_of result)) × Notable plan.entry.n result × (always (kind_number result.kind) ≡ true) }
{
    match c {
        0 => longest_draft(plan, i),
        1 => shortest_draft(plan, i),
        _ => lower_case_draft(plan, i),
    }
}

// What the try at a place of Lower adds.
fn lower_line(plan: SoundPlan, work: Bests, g: u64, at: Turns) -> Option<Draft>
    requires { (work.n ≡ plan.n) × (at.a < plan.k) × (at.b < plan.k) × (g ≤ 4096) × Known work.n work.cells.now }
    ensures { Tried (plan_of plan.entry.file.now) g work.entry.cells.now (place_of 4 at) result }
{
    kept(work, lower_draft(plan, work, g, at.a, at.b)?)
}

// And of Upper.
fn upper_line(plan: SoundPlan, work: Bests, g: u64, at: Turns) -> Option<Draft>
    requires { (work.n ≡ plan.n) × (at.a < work.n) × (at.b < plan.k) × (g ≤ 4096) × Known work.n work.cells.now }
    ensures { Tried (plan_of plan.entry.file.now) g work.entry.cells.now (place_of 5 at) result }
{
    kept(work, upper_draft(plan, work, g, at.a, at.b)?)
}

// A step of one try: its line, if it adds one, and on in the innermost loop.
fn tried(at: Turns, line: Option<Draft>) -> Step
    requires { at.c < 64 }
    ensures { (result.line ≡ line) × (result.next ≡ Some (record { a = at.a; b = at.b; c = at.c + 1 })) }
{
    Step {
        line,
        next: Some(Turns {
            a: at.a,
            b: at.b,
            c: at.c + 1,
        }),
    }
}

// The step at a place where a try is left.
fn try_at(plan: SoundPlan, work: Bests, g: u64, part: Part, at: Turns) -> Step
    requires { (work.n ≡ plan.n) × (at.a < outer_of plan.n plan.m plan.k (part_number part)) × (at.b < middle_of plan.n plan.k (part_number part)) × (at.c < inner_of plan.n (part_number part)) × (g ≤ 4096) × Known work.n work.cells.now }
    ensures { Stepped (plan_of plan.entry.file.now) g work.entry.cells.now (place_of (part_number part) at) result.line (next_of (part_number part) result.next) }
{
    match part {
        Part::StartEdges => tried(at, kept(work, start_draft(at.a))),
        Part::Limits => tried(at, kept(work, limit_draft(plan, at.a))),
        Part::Links => tried(at, Some(link_line(plan, at.a, at.c))),
        Part::StrictJoins => join_step(work, Side::Strict, at),
        Part::Lower => tried(at, lower_line(plan, work, g, at)),
        Part::Upper => tried(at, upper_line(plan, work, g, at)),
        Part::OpenJoins => join_step(work, Side::Open, at),
    }
}

// One step of a part: a try, or on from a loop that is through.
pub fn step_at(plan: SoundPlan, work: Bests, g: u64, part: Part, at: Turns) -> Step
    requires { (work.n ≡ plan.n) × Placed (plan_of plan.file.now) (place_of (part_number part) at) × (g ≤ 4096) × (TryLeft (plan_of plan.file.now) (place_of (part_number part) at) → Known work.n work.cells.now) }
    ensures { Stepped (plan_of plan.entry.file.now) g work.entry.cells.now (place_of (part_number part) at) result.line (next_of (part_number part) result.next) }
{
    if at.a >= outer(plan, part) {
        return Step {
            line: None,
            next: None,
        };
    }
    if at.b >= middle(plan, part) {
        return Step {
            line: None,
            next: Some(Turns {
                a: at.a + 1,
                b: 0,
                c: 0,
            }),
        };
    }
    if at.c >= inner(plan, part) {
        return Step {
            line: None,
            next: Some(Turns {
                a: at.a,
                b: at.b + 1,
                c: 0,
            }),
        };
    }
    try_at(plan, work, g, part, at)
}
