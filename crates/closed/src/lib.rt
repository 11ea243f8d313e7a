// The closed test: whether two lent tables are closed for the plan of a sound file, exactly. Each file below holds one part of the
// paper's sentence "Tables are closed for a plan if ..", as small functions with one loop each; what each decides is said by
// specs/Parts.antt. They stop at the first violation, save that a row of sums along a middle point is looked at to its end
// (joins.rt says why). The ranges come first: a table whose cells are in range is handed on as a `View`, in which no sum leaves its type.
#![tactic(auto, using(crate::proofs::ClosedWhole::link_there, crate::proofs::CellTests::stored_here))]

mod bounds;
mod given;
mod joins;
mod lower;
mod open_table;
mod upper;
mod within;

ghost use Rattle.std.specs.Prelude.{◌≡◌, ◌*◌, ◌≤◌, length, MatchOption};
ghost use Rattle.rules.specs.Plan.{version1};
ghost use Rattle.rules.specs.Cells.{table_of};
ghost use Rattle.rules.specs.Tables.{Closed};
ghost use Rattle.plan.specs.Layout.{limit_at, link_at, plan_of};
ghost use Rattle.cell.specs.Steps.{Decides};
ghost use Rattle.closed.specs.Parts.{Alone, StrictHeld, OpenHeld};

use given::{limits_held, links_held, starts_held};
use joining::View;
use joins::all_joined;
use lower::all_lowered;
use open_table::{all_under, cases_held};
use reader::SoundPlan;
use upper::all_uppered;
use within::{diagonal, within};

// A table by itself, to read where its cells are in range, its diagonal is 0 and no cell is above a sum along a middle point.
fn alone(cells: &[i32], n: usize) -> Option<View<'_, i32>>
    requires { (n * n ≤ length cells.now) × (n ≤ 64) }
    ensures { MatchOption result (Alone version1.reach n (table_of version1 n cells.now) → ⊥) (λ t. Alone version1.reach n (table_of version1 n cells.now) × (t.n ≡ n) × (t.cells.now ≡ cells.now)) }
{
    let t = within(cells, n)?;
    if !(diagonal(t) && all_joined(t)) {
        return None;
    }
    Some(t)
}

// The strict table against the given edges, Lower and Upper.
fn strict_held(plan: SoundPlan<'_>, t: View<'_, i32>) -> bool
    requires { t.n ≡ plan.n }
    ensures { Decides result (StrictHeld t.entry.n (limit_at plan.entry.file.now) plan.entry.m (link_at plan.entry.file.now plan.entry.m) plan.entry.k (table_of version1 t.entry.n t.entry.cells.now)) }
{
    limits_held(plan, t)
        && starts_held(t)
        && links_held(plan, t)
        && all_lowered(plan, t)
        && all_uppered(plan, t)
}

// The open table against the strict one and the lower-case edges.
fn open_held(plan: SoundPlan<'_>, strict: View<'_, i32>, open: View<'_, i32>) -> bool
    requires { (strict.n ≡ plan.n) × («open».n ≡ plan.n) }
    ensures { Decides result (OpenHeld strict.entry.n (link_at plan.entry.file.now plan.entry.m) plan.entry.k (table_of version1 strict.entry.n strict.entry.cells.now) (table_of version1 «open».entry.n «open».entry.cells.now)) }
{
    all_under(strict, open) && cases_held(plan, open)
}

// Whether two tables of n x n cells are closed for a plan of n points.
pub fn closed(plan: SoundPlan<'_>, strict: &[i32], open: &[i32]) -> bool
    requires { (plan.n * plan.n ≤ length strict.now) × (plan.n * plan.n ≤ length «open».now) }
    ensures { Decides result (Closed version1 (plan_of plan.entry.file.now) (table_of version1 plan.entry.n strict.now) (table_of version1 plan.entry.n «open».now)) }
{
    let Some(strict) = alone(strict, plan.n) else {
        return false;
    };
    let Some(open) = alone(open, plan.n) else {
        return false;
    };
    strict_held(plan, strict) && open_held(plan, strict, open)
}
