// The strict table to start with: the mark everywhere, 0 on the diagonal, and every given edge.
ghost use Rattle.std.specs.Prelude.{◌≡◌, ◌*◌, ◌≤◌, length};
ghost use Rattle.rules.specs.Plan.{version1, LinkInRange};
ghost use Rattle.plan.specs.Layout.{limit_at, link_at};
ghost use Rattle.plan.specs.Values.{link_of};
ghost use Rattle.lowering.specs.Sweep.{limit_all, start_all, link_edges, link_all, first_strict};
ghost use Rattle.joining.specs.Takes.{Takes};

use cell::Word;
use joining::Table;
use plan::Link;
use reader::SoundPlan;

// Every limit.
fn limit_all(plan: SoundPlan, t: &mut Table<'_, i32>)
    requires { plan.n ≡ t.old.n }
    ensures { Takes (limit_all version1 t.old.n (limit_at plan.entry.file.now) plan.entry.m) t.old t.new }
{
    for i in 0..plan.m {
        t.limit_cell(plan.limit(i));
    }
}

// Every start edge.
fn start_all(t: &mut Table<'_, i32>)
    ensures { Takes (start_all version1 t.old.n) t.old t.new }
{
    for x in 0..t.n {
        t.lower_cell(x, 0, i32::of(0));
    }
}

// Both ordinary edges of a link: its longest, its shortest.
fn link_edges(t: &mut Table<'_, i32>, a: Link)
    requires { LinkInRange version1 t.old.n (link_of a) }
    ensures { Takes (link_edges version1 t.old.n (link_of a)) t.old t.new }
{
    let act = a.act as usize;
    let con = a.con as usize;
    t.lower_cell(act, con, i32::of(a.long));
    t.lower_cell(con, act, i32::of(a.short).negated());
}

// Every link's.
fn link_all(plan: SoundPlan, t: &mut Table<'_, i32>)
    requires { plan.n ≡ t.old.n }
    ensures { Takes (link_all version1 t.old.n (link_at plan.entry.file.now plan.entry.m) plan.entry.k) t.old t.new }
{
    for i in 0..plan.k {
        link_edges(t, plan.link(i));
    }
}

// The strict table to start with, in a lent list.
pub fn first_strict<'a>(plan: SoundPlan, cells: &'a mut [i32]) -> Table<'a, i32>
    requires { plan.n * plan.n ≤ length cells.old }
    ensures same_list { result.cells.ghost_name ≡ cells.entry.ghost_name }
    ensures same_size { result.n ≡ plan.entry.n }
    ensures cells { result.cells.now ≡ first_strict version1 plan.entry.n (limit_at plan.entry.file.now) plan.entry.m (link_at plan.entry.file.now plan.entry.m) plan.entry.k cells.old }
{
    let mut t = Table::marked(cells, plan.n);
    t.diagonal_all();
    limit_all(plan, &mut t);
    start_all(&mut t);
    link_all(plan, &mut t);
    t
}
