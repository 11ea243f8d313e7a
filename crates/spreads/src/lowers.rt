// Lower: for each of the links, for each second link. It reads and writes the strict table.
ghost use Rattle.std.specs.Prelude.{◌≡◌};
ghost use Rattle.rules.specs.Plan.{version1, LinkInRange};
ghost use Rattle.plan.specs.Layout.{link_at};
ghost use Rattle.plan.specs.Values.{link_of};
ghost use Rattle.lowering.specs.Spread.{lower_edge, lower_edges, lower_round};
ghost use Rattle.joining.specs.Takes.{Takes};

use crate::spreading::new_edge;
use cell::Word;
use joining::Table;
use plan::Link;
use reader::SoundPlan;

// For the link a and the contingent point of the link b, if another.
fn lower_edge(t: &mut Table<'_, i32>, a: Link, b: Link)
    requires { LinkInRange version1 t.old.n (link_of a) × LinkInRange version1 t.old.n (link_of b) }
    ensures { Takes (lower_edge version1 t.old.n (link_of a) (link_of b)) t.old t.new }
{
    if b.con != a.con {
        let to = b.con as usize;
        let c = t.get(a.con as usize, to);
        new_edge(t, a.act as usize, to, c.lower(a.short, b.long - b.short));
    }
}

// For the link a and each of the links.
fn lower_edges(plan: SoundPlan, t: &mut Table<'_, i32>, a: Link)
    requires { (plan.n ≡ t.old.n) × LinkInRange version1 t.old.n (link_of a) }
    ensures { Takes (lower_edges version1 t.old.n (link_at plan.entry.file.now plan.entry.m) plan.entry.k (link_of a)) t.old t.new }
{
    for j in 0..plan.k {
        lower_edge(t, a, plan.link(j));
    }
}

// For each of the links.
pub fn lower_round(plan: SoundPlan, t: &mut Table<'_, i32>)
    requires { plan.n ≡ t.old.n }
    ensures { Takes (lower_round version1 t.old.n (link_at plan.entry.file.now plan.entry.m) plan.entry.k) t.old t.new }
{
    for i in 0..plan.k {
        lower_edges(plan, t, plan.link(i));
    }
}
