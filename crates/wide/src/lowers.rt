// Lower: for each link, and then for the contingent point of each other link.
ghost use Rattle.std.specs.Prelude.{◌≡◌, ◌<◌};
ghost use Rattle.cell.specs.Steps.{adding};
ghost use Rattle.rules.specs.Plan.{version1, LinkInRange};
ghost use Rattle.plan.specs.Layout.{link_at};
ghost use Rattle.plan.specs.Values.{link_of};
ghost use Rattle.lowering.specs.Sweep.{lower_pair, lower_link, lower_all};
ghost use Rattle.joining.specs.Takes.{Takes};

use cell::Word;
use joining::Table;
use plan::Link;
use reader::SoundPlan;

// For the link a and the contingent point of the link b, if another.
fn lower_pair(t: &mut Table<'_, i64>, a: Link, b: Link)
    requires { LinkInRange version1 t.old.n (link_of a) × LinkInRange version1 t.old.n (link_of b) }
    ensures { Takes (lower_pair adding t.old.n (link_of a) (link_of b)) t.old t.new }
{
    if b.con != a.con {
        let c = t.get(a.con as usize, b.con as usize);
        t.lower_cell(
            a.act as usize,
            b.con as usize,
            c.lower(a.short, b.long - b.short),
        );
    }
}

// For the link a and each of the links.
fn lower_link(t: &mut Table<'_, i64>, plan: SoundPlan, a: Link)
    requires { (plan.n ≡ t.old.n) × LinkInRange version1 t.old.n (link_of a) }
    ensures { Takes (lower_link adding t.old.n (link_at plan.entry.file.now plan.entry.m) plan.entry.k (link_of a)) t.old t.new }
{
    for j in 0..plan.k {
        lower_pair(t, a, plan.link(j));
    }
}

// For each of the links.
pub fn lower_all(t: &mut Table<'_, i64>, plan: SoundPlan)
    requires { plan.n ≡ t.old.n }
    ensures { Takes (lower_all adding t.old.n (link_at plan.entry.file.now plan.entry.m) plan.entry.k) t.old t.new }
{
    for i in 0..plan.k {
        lower_link(t, plan, plan.link(i));
    }
}
