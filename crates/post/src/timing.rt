// Earliest: the earliest timetable of a plan without links.
ghost use Rattle.std.specs.Prelude.{◌≡◌, ◌*◌, ◌≤◌, length};
ghost use Rattle.rules.specs.Plan.{version1};
ghost use Rattle.rules.specs.Calls.{Timed};
ghost use Rattle.plan.specs.Layout.{plan_of};
ghost use Rattle.plan.specs.File.{file_answer};

use crate::judging::{judge, lent};
use reader::SoundPlan;
use rules::{Answer, Refusal};
use tables::times_all;

// Earliest of a plan without links, with room: Judge, and the times where it is done.
fn timed(plan: SoundPlan, strict: &mut [i32], open: &mut [i32], times: &mut [i32]) -> Answer
    requires { (plan.k ≡ 0) × (plan.n * plan.n ≤ length strict.old) × (plan.n * plan.n ≤ length «open».old) × (plan.n ≤ length times.old) }
    ensures { Timed version1 (file_answer plan.entry.file.now) (plan_of plan.entry.file.now) strict.old «open».old times.old result strict.new «open».new times.new }
{
    judge(plan.file, strict, open)?;
    times_all(strict, plan.n, times);
    Ok(())
}

// Earliest: the pair, Sound and then Judge, with its own tests between them. Sound comes first in `lent`.
pub fn earliest(file: &[u8], strict: &mut [i32], open: &mut [i32], times: &mut [i32]) -> Answer
    ensures { Timed version1 (file_answer file.now) (plan_of file.now) strict.old «open».old times.old result strict.new «open».new times.new }
{
    let plan = lent(file, strict.len(), open.len())?;
    if times.len() < plan.n {
        return Err(Refusal::ShortRoom);
    }
    if plan.k != 0 {
        return Err(Refusal::HasLinks);
    }
    timed(plan, strict, open, times)
}
