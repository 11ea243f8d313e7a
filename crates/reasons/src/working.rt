// The working-out of a reason list, part by part.
ghost use Rattle.std.specs.Prelude.{◌≡◌, ◌≢◌, IfSome, List, ℕ, ◌+◌, ◌*◌, ◌≤◌, ◌<◌, length};
ghost use Rattle.rules.specs.Calls.{Kept};
ghost use Rattle.cell.specs.Steps.{roomy};
ghost use Rattle.plan.specs.Layout.{plan_of};
ghost use Rattle.chain.specs.Lines.{Line};
ghost use Rattle.chain.specs.Reasons.{before_links, sweeps};
ghost use Rattle.chain.specs.Call.{Lists as Slices};
ghost use Rattle.offers.specs.Drafts.{Notable};
ghost use Rattle.reasons.specs.Stands.{part_number, first_of, InOrder, through};
ghost use Rattle.reasons.specs.Notes.{taken_count, taken_work, taken_lists, closes_of};
ghost use Rattle.reasons.specs.Lent.{lists_of, SameLists, SameWork};
ghost use Rattle.reasons.specs.Working.{Begun, Begins, Left, Swept, Sweeping, Worked};

use crate::lists::Lists;
use crate::stepping::step_at;
use crate::work::Work;
use crate::{Part, Turns};
use offers::Draft;
use std::ops::ControlFlow;

// Whether there is a line that closes below zero.
fn closes(d: Option<Draft>) -> bool
    ensures { result ≡ closes_of d }
{
    match d {
        Some(d) => d.from == d.to && d.weight < 0,
        None => false,
    }
}

// A draft taken: noted as the next line, if there is one. How many lines there are then.
fn take(lists: &mut Lists<'_>, work: &mut Work<'_>, lines: u64, d: Option<Draft>) -> u64
    requires { IfSome d (Notable work.old.plan.n) × (d ≢ None → lines < roomy.reach) }
    ensures same { SameLists lists.old lists.new × (lists.new.room ≡ lists.old.room) × SameWork work.old work.new }
    ensures lines { result ≡ taken_count d lines }
    ensures cells { work.new.cells.now ≡ taken_work work.old.plan.n d lines work.old.cells.now }
    ensures lists { lists_of lists.new ≡ taken_lists lists.old.room d lines (lists_of lists.old) }
{
    let Some(line) = d else {
        return lines;
    };
    work.note_line(line, lines);
    lists.set_line(lines, line);
    lines + 1
}

// One part of a list that has not ended, with g lines before those of the links. How many lines there are then: it breaks off at a line that ends the list.
fn work_part(
    lists: &mut Lists<'_>,
    work: &mut Work<'_>,
    g: u64,
    part: Part,
    count: u64,
) -> ControlFlow<u64, u64>
    requires { (g ≤ 4096) × Begins (plan_of work.old.plan.file.now) g (part_number part) (part_number part + 1) lists.old.room count (lists_of lists.old) work.old.cells.now }
    ensures same { SameLists lists.old lists.new × (lists.new.room ≡ lists.old.room) × SameWork work.old work.new }
    ensures kept { Kept (4 * (work.old.plan.n * work.old.plan.n)) work.old.cells.now work.new.cells.now }
    ensures left { (base : List Line) (first : Slices) → Begun (plan_of work.old.plan.file.now) g (part_number part) (part_number part + 1) lists.old.room base first count (lists_of lists.old) work.old.cells.now → Left work.old.plan.n lists.old.room (through (plan_of work.old.plan.file.now) g (part_number part) 1 base) first result (lists_of lists.new) work.new.cells.now }
{
    let mut next = Some(Turns { a: 0, b: 0, c: 0 });
    let mut lines = count;
    while let Some(at) = next {
        let step = step_at(work.plan, work.bests(), g, part, at);
        lines = take(lists, work, lines, step.line);
        if closes(step.line) {
            return ControlFlow::Break(lines);
        }
        next = step.next;
    }
    ControlFlow::Continue(lines)
}

// Parts one after another.
fn work_through(
    lists: &mut Lists<'_>,
    work: &mut Work<'_>,
    g: u64,
    parts: &[Part],
    count: u64,
) -> ControlFlow<u64, u64>
    requires { (g ≤ 4096) × InOrder (first_of parts.now) parts.now × Begins (plan_of work.old.plan.file.now) g (first_of parts.now) (first_of parts.now + length parts.now) lists.old.room count (lists_of lists.old) work.old.cells.now }
    ensures same { SameLists lists.old lists.new × (lists.new.room ≡ lists.old.room) × SameWork work.old work.new }
    ensures kept { Kept (4 * (work.old.plan.n * work.old.plan.n)) work.old.cells.now work.new.cells.now }
    ensures left { (base : List Line) (first : Slices) → Begun (plan_of work.old.plan.file.now) g (first_of parts.now) (first_of parts.now + length parts.now) lists.old.room base first count (lists_of lists.old) work.old.cells.now → Left work.old.plan.n lists.old.room (through (plan_of work.old.plan.file.now) g (first_of parts.now) (length parts.now) base) first result (lists_of lists.new) work.new.cells.now }
{
    let mut lines = count;
    for part in parts {
        lines = work_part(lists, work, g, *part, lines)?;
    }
    ControlFlow::Continue(lines)
}

// Sweeps, until one adds nothing or ends the list.
fn sweep_on(lists: &mut Lists<'_>, work: &mut Work<'_>, g: u64, count: u64) -> ControlFlow<u64, u64>
    requires { (g ≡ length (before_links (plan_of work.old.plan.file.now))) × Sweeping (plan_of work.old.plan.file.now) lists.old.room count (lists_of lists.old) work.old.cells.now }
    ensures same { SameLists lists.old lists.new × (lists.new.room ≡ lists.old.room) × SameWork work.old work.new }
    ensures kept { Kept (4 * (work.old.plan.n * work.old.plan.n)) work.old.cells.now work.new.cells.now }
    ensures worked { (first : Slices) → Swept (plan_of work.old.plan.file.now) lists.old.room first count (lists_of lists.old) work.old.cells.now → Worked (plan_of work.old.plan.file.now) lists.old.room first result (lists_of lists.new) work.new.cells.now }
{
    let mut lines = count;
    loop {
        let swept = work_through(
            lists,
            work,
            g,
            &[Part::StrictJoins, Part::Lower, Part::Upper, Part::OpenJoins],
            lines,
        )?;
        if swept == lines {
            return ControlFlow::Continue(lines);
        }
        lines = swept;
    }
}

// The whole list, from the start.
pub fn run(lists: &mut Lists<'_>, work: &mut Work<'_>) -> ControlFlow<u64, u64>
    ensures same { SameLists lists.old lists.new × (lists.new.room ≡ lists.old.room) × SameWork work.old work.new }
    ensures kept { Kept (4 * (work.old.plan.n * work.old.plan.n)) work.old.cells.now work.new.cells.now }
    ensures worked { Worked (plan_of work.old.plan.file.now) lists.old.room (lists_of lists.old) result (lists_of lists.new) work.new.cells.now }
{
    work.begin();
    let before = work_through(lists, work, 0, &[Part::StartEdges, Part::Limits], 0)?;
    let given = work_through(lists, work, 0, &[Part::Links], before)?;
    sweep_on(lists, work, before, given)
}
