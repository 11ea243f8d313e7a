// Judge: two tables filled from a plan file, or the plan refused as uncontrollable.
ghost use Rattle.std.specs.Prelude.{◌≡◌, ◌*◌, ◌≤◌, length, MatchResult};
ghost use Rattle.rules.specs.Plan.{version1};
ghost use Rattle.rules.specs.Calls.{Judged};
ghost use Rattle.plan.specs.Layout.{plan_of};
ghost use Rattle.plan.specs.File.{file_answer};
ghost use Rattle.post.specs.Lent.{Lent};

use joining::mark_all;
use reader::{SoundPlan, read};
use rules::{Answer, Refusal};
use tables::settle;

// What comes before the work: Sound, then room for two tables of so many cells.
pub fn lent(file: &[u8], strict: usize, open: usize) -> Result<SoundPlan, Refusal>
    ensures { MatchResult result (λ plan. (plan.file ≡ file.entry) × (plan.n * plan.n ≤ strict) × (plan.n * plan.n ≤ «open»)) (λ refusal. Lent file.now strict «open» (Err refusal)) }
{
    let plan = read(file)?;
    let cells = plan.n * plan.n;
    if strict < cells || open < cells {
        return Err(Refusal::ShortRoom);
    }
    Ok(plan)
}

// Judge of a plan, with room: the plan's tables, or the mark in every cell of both.
fn judge_sound(plan: SoundPlan, strict: &mut [i32], open: &mut [i32]) -> Answer
    requires { (plan.n * plan.n ≤ length strict.old) × (plan.n * plan.n ≤ length «open».old) }
    ensures { Judged version1 (file_answer plan.entry.file.now) (plan_of plan.entry.file.now) strict.old «open».old result strict.new «open».new }
{
    if settle(plan, strict, open) {
        return Ok(());
    }
    let cells = plan.n * plan.n;
    mark_all(strict, cells);
    mark_all(open, cells);
    Err(Refusal::NotControllable)
}

// Judge. It looks at the file itself, whatever Sound said of it before: since then it may have changed.
pub fn judge(file: &[u8], strict: &mut [i32], open: &mut [i32]) -> Answer
    ensures { Judged version1 (file_answer file.now) (plan_of file.now) strict.old «open».old result strict.new «open».new }
{
    let plan = lent(file, strict.len(), open.len())?;
    judge_sound(plan, strict, open)
}
