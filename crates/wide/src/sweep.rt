// What a sweep does with one table.
ghost use Rattle.std.specs.Prelude.{◌≡◌};
ghost use Rattle.cell.specs.Steps.{adding};
ghost use Rattle.plan.specs.Layout.{link_at};
ghost use Rattle.lowering.specs.Sweep.{join_all, case_all, sweep_strict};
ghost use Rattle.joining.specs.Takes.{Takes};

use crate::lowers::lower_all;
use crate::opening::case_all;
use crate::uppers::upper_all;
use joining::Table;
use reader::SoundPlan;

// The strict table: joins, then Lower, then Upper.
pub fn sweep_strict(t: &mut Table<'_, i64>, plan: SoundPlan)
    requires { plan.n ≡ t.old.n }
    ensures { Takes (sweep_strict adding t.old.n (link_at plan.entry.file.now plan.entry.m) plan.entry.k) t.old t.new }
{
    t.join_all();
    lower_all(t, plan);
    upper_all(t, plan);
}

// The open table once it is under the strict one: under the lower-case edges, joins.
pub fn join_cases(t: &mut Table<'_, i64>, plan: SoundPlan)
    requires { plan.n ≡ t.old.n }
    ensures { Takes (λ cells. join_all adding t.old.n (case_all adding t.old.n (link_at plan.entry.file.now plan.entry.m) plan.entry.k cells)) t.old t.new }
{
    case_all(t, plan);
    t.join_all();
}
