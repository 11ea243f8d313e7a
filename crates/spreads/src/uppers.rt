// Upper: for each of the links, from each point. It reads and writes the strict table.
ghost use Rattle.std.specs.Prelude.{◌≡◌, ◌<◌};
ghost use Rattle.rules.specs.Plan.{version1, LinkInRange};
ghost use Rattle.plan.specs.Layout.{link_at};
ghost use Rattle.plan.specs.Values.{link_of};
ghost use Rattle.lowering.specs.Spread.{upper_edge, upper_edges, upper_round};
ghost use Rattle.joining.specs.Takes.{Takes};

use crate::spreading::new_edge;
use cell::Word;
use joining::Table;
use plan::Link;
use reader::SoundPlan;

// For the link a, from the point x.
fn upper_edge(t: &mut Table<'_, i32>, a: Link, x: usize)
    requires { (x < t.old.n) × LinkInRange version1 t.old.n (link_of a) }
    ensures { Takes (upper_edge version1 t.old.n (link_of a) x) t.old t.new }
{
    let c = t.get(x, a.con as usize);
    new_edge(t, x, a.act as usize, c.upper(a.short, a.long));
}

// For the link a, from each point.
fn upper_edges(t: &mut Table<'_, i32>, a: Link)
    requires { LinkInRange version1 t.old.n (link_of a) }
    ensures { Takes (upper_edges version1 t.old.n (link_of a)) t.old t.new }
{
    for x in 0..t.n {
        upper_edge(t, a, x);
    }
}

// For each of the links.
pub fn upper_round(plan: SoundPlan, t: &mut Table<'_, i32>)
    requires { plan.n ≡ t.old.n }
    ensures { Takes (upper_round version1 t.old.n (link_at plan.entry.file.now plan.entry.m) plan.entry.k) t.old t.new }
{
    for i in 0..plan.k {
        upper_edges(t, plan.link(i));
    }
}
