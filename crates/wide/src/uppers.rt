// Upper: from each point, for each of the links. It reads and writes the strict table.
ghost use Rattle.std.specs.Prelude.{◌≡◌, ◌<◌};
ghost use Rattle.cell.specs.Steps.{adding};
ghost use Rattle.rules.specs.Plan.{version1, LinkInRange};
ghost use Rattle.plan.specs.Layout.{link_at};
ghost use Rattle.plan.specs.Values.{link_of};
ghost use Rattle.lowering.specs.Sweep.{upper_cell, upper_point, upper_all};
ghost use Rattle.joining.specs.Takes.{Takes};

use cell::Word;
use joining::Table;
use plan::Link;
use reader::SoundPlan;

// From the point x, for the link a.
fn upper_cell(t: &mut Table<'_, i64>, x: usize, a: Link)
    requires { (x < t.old.n) × LinkInRange version1 t.old.n (link_of a) }
    ensures { Takes (upper_cell adding t.old.n x (link_of a)) t.old t.new }
{
    let c = t.get(x, a.con as usize);
    t.lower_cell(x, a.act as usize, c.upper(a.short, a.long));
}

// From the point x, for each of the links.
fn upper_point(t: &mut Table<'_, i64>, plan: SoundPlan, x: usize)
    requires { (x < t.old.n) × (plan.n ≡ t.old.n) }
    ensures { Takes (upper_point adding t.old.n (link_at plan.entry.file.now plan.entry.m) plan.entry.k x) t.old t.new }
{
    for i in 0..plan.k {
        upper_cell(t, x, plan.link(i));
    }
}

// From each point.
pub fn upper_all(t: &mut Table<'_, i64>, plan: SoundPlan)
    requires { plan.n ≡ t.old.n }
    ensures { Takes (upper_all adding t.old.n (link_at plan.entry.file.now plan.entry.m) plan.entry.k) t.old t.new }
{
    for x in 0..t.n {
        upper_point(t, plan, x);
    }
}
