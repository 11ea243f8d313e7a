// The strict table against what Upper yields.
ghost use Rattle.std.specs.Prelude.{◌≡◌, ◌<◌};
ghost use Rattle.rules.specs.Plan.{version1, LinkInRange};
ghost use Rattle.rules.specs.Cells.{table_of};
ghost use Rattle.plan.specs.Layout.{link_at};
ghost use Rattle.plan.specs.Values.{link_of};
ghost use Rattle.cell.specs.Steps.{Decides};
ghost use Rattle.closed.specs.Parts.{PointUppered, LinkUppered, AllUppered};

use crate::bounds::at_most;
use cell::Word;
use joining::View;
use plan::Link;
use reader::SoundPlan;

// A link and the point x.
fn point_uppered(t: View<'_, i32>, link: Link, x: usize) -> bool
    requires { LinkInRange version1 t.n (link_of link) × (x < t.n) }
    ensures { Decides result (PointUppered (table_of version1 t.entry.n t.entry.cells.now) (link_of link) x) }
{
    let c = t.get(x, link.con as usize);
    let edge = c.upper(link.short, link.long);
    at_most(t, x, link.act as usize, edge)
}

// A link and every point.
fn link_uppered(t: View<'_, i32>, link: Link) -> bool
    requires { LinkInRange version1 t.n (link_of link) }
    ensures { Decides result (LinkUppered t.entry.n (table_of version1 t.entry.n t.entry.cells.now) (link_of link)) }
{
    for x in 0..t.n {
        if !point_uppered(t, link, x) {
            return false;
        }
    }
    true
}

// Every link and every point.
pub fn all_uppered(plan: SoundPlan<'_>, t: View<'_, i32>) -> bool
    requires { t.n ≡ plan.n }
    ensures { Decides result (AllUppered t.entry.n (link_at plan.entry.file.now plan.entry.m) plan.entry.k (table_of version1 t.entry.n t.entry.cells.now)) }
{
    for i in 0..plan.k {
        if !link_uppered(t, plan.link(i)) {
            return false;
        }
    }
    true
}
