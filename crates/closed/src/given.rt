// The strict table against the given edges: the limits, the start edges, both ordinary edges of each link.
ghost use Rattle.std.specs.Prelude.{◌≡◌};
ghost use Rattle.rules.specs.Plan.{version1, LimitInRange, LinkInRange};
ghost use Rattle.rules.specs.Cells.{table_of};
ghost use Rattle.plan.specs.Layout.{limit_at, link_at};
ghost use Rattle.plan.specs.Values.{limit_of, link_of};
ghost use Rattle.cell.specs.Steps.{Decides};
ghost use Rattle.closed.specs.Parts.{LimitHeld, LimitsHeld, StartsHeld, LinkHeld, LinksHeld};

use crate::bounds::at_most;
use cell::Word;
use joining::View;
use plan::{Limit, Link};
use reader::SoundPlan;

// Whether the cell of a limit does not exceed it.
fn limit_held(t: View<'_, i32>, limit: Limit) -> bool
    requires { LimitInRange version1 t.n (limit_of limit) }
    ensures { Decides result (LimitHeld (table_of version1 t.entry.n t.entry.cells.now) (limit_of limit)) }
{
    at_most(t, limit.from as usize, limit.to as usize, limit.weight)
}

// Every limit.
pub fn limits_held(plan: SoundPlan<'_>, t: View<'_, i32>) -> bool
    requires { t.n ≡ plan.n }
    ensures { Decides result (LimitsHeld (limit_at plan.entry.file.now) plan.entry.m (table_of version1 t.entry.n t.entry.cells.now)) }
{
    for i in 0..plan.m {
        if !limit_held(t, plan.limit(i)) {
            return false;
        }
    }
    true
}

// Every start edge: the cell from each point to the start does not exceed 0.
pub fn starts_held(t: View<'_, i32>) -> bool
    ensures { Decides result (StartsHeld t.entry.n (table_of version1 t.entry.n t.entry.cells.now)) }
{
    for x in 0..t.n {
        if !at_most(t, x, 0, 0) {
            return false;
        }
    }
    true
}

// Both ordinary edges of a link: its longest, its shortest.
fn link_held(t: View<'_, i32>, link: Link) -> bool
    requires { LinkInRange version1 t.n (link_of link) }
    ensures { Decides result (LinkHeld (table_of version1 t.entry.n t.entry.cells.now) (link_of link)) }
{
    let act = link.act as usize;
    let con = link.con as usize;
    at_most(t, act, con, i32::of(link.long)) && at_most(t, con, act, i32::of(link.short).negated())
}

// Every link.
pub fn links_held(plan: SoundPlan<'_>, t: View<'_, i32>) -> bool
    requires { t.n ≡ plan.n }
    ensures { Decides result (LinksHeld (link_at plan.entry.file.now plan.entry.m) plan.entry.k (table_of version1 t.entry.n t.entry.cells.now)) }
{
    for i in 0..plan.k {
        if !link_held(t, plan.link(i)) {
            return false;
        }
    }
    true
}
