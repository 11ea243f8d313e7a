// Sweeps of both tables in the scratch until they stay, or until one of them speaks against the plan.
ghost use Rattle.std.specs.Prelude.{◌≡◌, ◌+◌, ◌*◌};
ghost use Rattle.cell.specs.Steps.{adding};
ghost use Rattle.plan.specs.Layout.{link_at};
ghost use Rattle.lowering.specs.Sweep.{sweep_strict, sweep_open, heights};
ghost use Rattle.joining.specs.Takes.{Takes};
ghost use Rattle.scratch.specs.Swept.{Both, Settled, Ended};

use crate::opening::open_under;
use joining::{Table, View};
use reader::SoundPlan;
use wide::{join_cases, sweep_strict};

// One sweep of both tables.
fn sweep(plan: SoundPlan, strict: &mut Table<'_, i64>, open: &mut Table<'_, i64>)
    requires { (plan.n ≡ strict.old.n) × (plan.n ≡ «open».old.n) }
    ensures strict { Takes (sweep_strict adding plan.entry.n (link_at plan.entry.file.now plan.entry.m) plan.entry.k) strict.old strict.new }
    ensures weak { Takes (sweep_open adding plan.entry.n (link_at plan.entry.file.now plan.entry.m) plan.entry.k strict.new.cells.now) «open».old «open».new }
{
    sweep_strict(strict, plan);
    open_under(strict.read(), open);
    join_cases(open, plan);
}

// How far both tables can still fall, together.
fn both_heights(strict: View<'_, i64>, open: View<'_, i64>) -> u64
    ensures { result ≡ heights adding (strict.entry.n * strict.entry.n) strict.entry.cells.now + heights adding («open».entry.n * «open».entry.n) «open».entry.cells.now }
{
    strict.height_all() + open.height_all()
}

// Sweeps of two tables to the end: true where both stay, false where one of them speaks against the plan.
fn sweeps(plan: SoundPlan, strict: &mut Table<'_, i64>, open: &mut Table<'_, i64>) -> bool
    requires { (plan.n ≡ strict.old.n) × (plan.n ≡ «open».old.n) }
    ensures same_lists { (strict.new.cells.ghost_name ≡ strict.old.cells.ghost_name) × («open».new.cells.ghost_name ≡ «open».old.cells.ghost_name) }
    ensures settled { Settled adding plan.entry.n (link_at plan.entry.file.now plan.entry.m) plan.entry.k strict.old.cells.now «open».old.cells.now strict.new.cells.now «open».new.cells.now result }
{
    let mut last = both_heights(strict.read(), open.read());
    loop {
        sweep(plan, strict, open);
        let first = strict.read();
        let second = open.read();
        if !first.fair() || !second.fair() {
            return false;
        }
        let next = both_heights(first, second);
        if next == last {
            return true;
        }
        last = next;
    }
}

// The same of both parts of the scratch.
pub fn settle(plan: SoundPlan, t: &mut [i64]) -> bool
    requires { Both adding plan.n t.old }
    ensures { Ended adding plan.entry.n (link_at plan.entry.file.now plan.entry.m) plan.entry.k t.old t.new result }
{
    let n = plan.n;
    let (strict, open) = t.split_at_mut(n * n);
    let mut strict = Table { cells: strict, n };
    let mut open = Table { cells: open, n };
    sweeps(plan, &mut strict, &mut open)
}
