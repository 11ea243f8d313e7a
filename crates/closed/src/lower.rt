// The strict table against what Lower yields.
ghost use Rattle.std.specs.Prelude.{◌≡◌};
ghost use Rattle.rules.specs.Plan.{version1, LinkInRange};
ghost use Rattle.rules.specs.Cells.{table_of};
ghost use Rattle.plan.specs.Layout.{link_at};
ghost use Rattle.plan.specs.Values.{link_of};
ghost use Rattle.cell.specs.Steps.{Decides};
ghost use Rattle.closed.specs.Parts.{PairLowered, LinkLowered, AllLowered};

use crate::bounds::at_most;
use cell::Word;
use joining::View;
use plan::Link;
use reader::SoundPlan;

// A link and a link of another contingent point.
fn pair_lowered(t: View<'_, i32>, link: Link, other: Link) -> bool
    requires { LinkInRange version1 t.n (link_of link) × LinkInRange version1 t.n (link_of other) }
    ensures { Decides result (PairLowered (table_of version1 t.entry.n t.entry.cells.now) (link_of link) (link_of other)) }
{
    if other.con == link.con {
        return true;
    }
    let to = other.con as usize;
    let c = t.get(link.con as usize, to);
    let edge = c.lower(link.short, other.long - other.short);
    at_most(t, link.act as usize, to, edge)
}

// A link and every other one.
fn link_lowered(plan: SoundPlan<'_>, t: View<'_, i32>, link: Link) -> bool
    requires { (t.n ≡ plan.n) × LinkInRange version1 t.n (link_of link) }
    ensures { Decides result (LinkLowered (link_at plan.entry.file.now plan.entry.m) plan.entry.k (table_of version1 t.entry.n t.entry.cells.now) (link_of link)) }
{
    for i in 0..plan.k {
        if !pair_lowered(t, link, plan.link(i)) {
            return false;
        }
    }
    true
}

// Every link and every other one.
pub fn all_lowered(plan: SoundPlan<'_>, t: View<'_, i32>) -> bool
    requires { t.n ≡ plan.n }
    ensures { Decides result (AllLowered (link_at plan.entry.file.now plan.entry.m) plan.entry.k (table_of version1 t.entry.n t.entry.cells.now)) }
{
    for i in 0..plan.k {
        if !link_lowered(plan, t, plan.link(i)) {
            return false;
        }
    }
    true
}
