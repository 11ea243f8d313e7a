// Both tables from a plan: the given edges joined, then rounds of Lower and Upper, each edge of which goes through both tables at once, until the strict one
// stays or one of them speaks against the plan. Both are looked at in every round: without the open one the strict cells of a plan can fall for ever.
ghost use Rattle.std.specs.Prelude.{◌≡◌, ◌⊎◌, ◌*◌, ◌≤◌, length};
ghost use Rattle.rules.specs.Plan.{version1};
ghost use Rattle.rules.specs.Calls.{Written};
ghost use Rattle.plan.specs.Layout.{limit_at, link_at, plan_of};
ghost use Rattle.lowering.specs.Sweep.{join_all, first_strict};
ghost use Rattle.lowering.specs.Spread.{Opened, strict_round};
ghost use Rattle.lowering.specs.Fair.{Fair, Unfair, Looked};
ghost use Rattle.joining.specs.Takes.{Takes};
ghost use Rattle.tables.specs.Ends.{Refused};

use crate::opening::{case_edges, copy_all, open_round};
use first::first_strict;
use joining::{Table, View};
use reader::SoundPlan;
use spreads::{lower_round, upper_round};

// The strict table of the given edges, joined.
fn joined_strict<'a>(plan: SoundPlan, cells: &'a mut [i32]) -> Table<'a, i32>
    requires { plan.n * plan.n ≤ length cells.old }
    ensures same_list { result.cells.ghost_name ≡ cells.entry.ghost_name }
    ensures same_size { result.n ≡ plan.entry.n }
    ensures cells { result.cells.now ≡ join_all version1 plan.entry.n (first_strict version1 plan.entry.n (limit_at plan.entry.file.now) plan.entry.m (link_at plan.entry.file.now plan.entry.m) plan.entry.k cells.old) }
{
    let mut t = first_strict(plan, cells);
    t.join_all();
    t
}

// The open table to start with: the strict one with every lower-case edge taken.
fn opened<'a>(plan: SoundPlan, strict: View<'_, i32>, cells: &'a mut [i32]) -> Table<'a, i32>
    requires { (strict.n ≡ plan.n) × (plan.n * plan.n ≤ length cells.old) }
    ensures same_list { result.cells.ghost_name ≡ cells.entry.ghost_name }
    ensures same_size { result.n ≡ plan.entry.n }
    ensures opened { Opened version1 plan.entry.n (link_at plan.entry.file.now plan.entry.m) plan.entry.k strict.entry.cells.now cells.old result.cells.now }
{
    copy_all(strict.cells, cells, plan.n * plan.n);
    let mut t = Table { cells, n: plan.n };
    case_edges(plan, &mut t);
    t
}

// A round of the strict table: Lower, then Upper.
fn strict_round(plan: SoundPlan, t: &mut Table<'_, i32>)
    requires { plan.n ≡ t.old.n }
    ensures { Takes (strict_round version1 t.old.n (link_at plan.entry.file.now plan.entry.m) plan.entry.k) t.old t.new }
{
    lower_round(plan, t);
    upper_round(plan, t);
}

// Whether nothing in both tables speaks against the plan.
fn both_fair(strict: View<'_, i32>, open: View<'_, i32>) -> bool
    ensures { Looked result (Fair version1 strict.entry.n strict.entry.cells.now × Fair version1 «open».entry.n «open».entry.cells.now) (Unfair version1 strict.entry.n strict.entry.cells.now ⊎ Unfair version1 «open».entry.n «open».entry.cells.now) }
{
    strict.fair() && open.fair()
}

// Both tables of a plan: true with the plan's tables, false where the plan is uncontrollable.
pub fn settle(plan: SoundPlan, strict: &mut [i32], open: &mut [i32]) -> bool
    requires { (plan.n * plan.n ≤ length strict.old) × (plan.n * plan.n ≤ length «open».old) }
    ensures { Looked result (Written version1 (plan_of plan.entry.file.now) strict.old «open».old strict.new «open».new) (Refused (plan_of plan.entry.file.now) strict.old «open».old strict.new «open».new) }
{
    let mut strict_table = joined_strict(plan, strict);
    let mut open_table = opened(plan, strict_table.read(), open);
    let mut last = strict_table.read().height_all();
    // Rounds until nothing falls: no index is counted, and the measure, which is `last`, is in the proof.
    'rounds: loop {
        if !both_fair(strict_table.read(), open_table.read()) {
            return false;
        }
        strict_round(plan, &mut strict_table);
        let next = strict_table.read().height_all();
        if next == last {
            return true;
        }
        last = next;
        open_round(plan, strict_table.read(), &mut open_table);
    }
}
