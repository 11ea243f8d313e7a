// The open table under the lower-case edge of each link.
ghost use Rattle.std.specs.Prelude.{◌≡◌};
ghost use Rattle.cell.specs.Steps.{adding};
ghost use Rattle.rules.specs.Plan.{version1, LinkInRange};
ghost use Rattle.plan.specs.Layout.{link_at};
ghost use Rattle.plan.specs.Values.{link_of};
ghost use Rattle.lowering.specs.Sweep.{case_link, case_all};
ghost use Rattle.joining.specs.Takes.{Takes};

use cell::Word;
use joining::Table;
use plan::Link;
use reader::SoundPlan;

// The cell of a link under its lower-case edge.
fn case_link(t: &mut Table<'_, i64>, a: Link)
    requires { LinkInRange version1 t.old.n (link_of a) }
    ensures { Takes (case_link adding t.old.n (link_of a)) t.old t.new }
{
    t.lower_cell(a.act as usize, a.con as usize, i64::of(a.short));
}

// Every link's.
pub fn case_all(t: &mut Table<'_, i64>, plan: SoundPlan)
    requires { plan.n ≡ t.old.n }
    ensures { Takes (case_all adding t.old.n (link_at plan.entry.file.now plan.entry.m) plan.entry.k) t.old t.new }
{
    for i in 0..plan.k {
        case_link(t, plan.link(i));
    }
}
