// The open table: the strict one, the lower-case edge of each link, and every edge by which the strict one fell.
ghost use Rattle.std.specs.Prelude.{◌≡◌, ◌≤◌, ◌<◌, length};
ghost use Rattle.rules.specs.Plan.{version1, LinkInRange};
ghost use Rattle.plan.specs.Layout.{link_at};
ghost use Rattle.plan.specs.Values.{link_of};
ghost use Rattle.lowering.specs.Spread.{Copied, case_edge, case_edges, follow_lower, follow_lowers, follow_upper, follow_uppers, follow_link, open_round};
ghost use Rattle.joining.specs.Takes.{Takes};

use cell::Word;
use joining::{Table, View};
use plan::Link;
use reader::SoundPlan;
use spreads::new_edge;

// The first cells of the strict table, copied. A loop of its own: the library's copy calls a function of C's that libpost.a otherwise needs from nobody.
pub fn copy_all(strict: &[i32], open: &mut [i32], count: usize)
    requires { (count ≤ length strict.now) × (count ≤ length «open».old) }
    ensures { Copied count strict.now «open».old «open».new }
{
    for i in 0..count {
        open[i] = strict[i];
    }
}

// The lower-case edge of a link.
fn case_edge(open: &mut Table<'_, i32>, a: Link)
    requires { LinkInRange version1 «open».old.n (link_of a) }
    ensures { Takes (case_edge version1 «open».old.n (link_of a)) «open».old «open».new }
{
    new_edge(open, a.act as usize, a.con as usize, i32::of(a.short));
}

// Every link's.
pub fn case_edges(plan: SoundPlan, open: &mut Table<'_, i32>)
    requires { plan.n ≡ «open».old.n }
    ensures { Takes (case_edges version1 «open».old.n (link_at plan.entry.file.now plan.entry.m) plan.entry.k) «open».old «open».new }
{
    for i in 0..plan.k {
        case_edge(open, plan.link(i));
    }
}

// The strict cell to which Lower leads, for two links.
fn follow_lower(strict: View<'_, i32>, open: &mut Table<'_, i32>, a: Link, b: Link)
    requires { (strict.n ≡ «open».old.n) × LinkInRange version1 «open».old.n (link_of a) × LinkInRange version1 «open».old.n (link_of b) }
    ensures { Takes (follow_lower version1 «open».old.n strict.entry.cells.now (link_of a) (link_of b)) «open».old «open».new }
{
    let from = a.act as usize;
    let to = b.con as usize;
    new_edge(open, from, to, strict.get(from, to));
}

// For the link a and each of the links.
fn follow_lowers(plan: SoundPlan, strict: View<'_, i32>, open: &mut Table<'_, i32>, a: Link)
    requires { (plan.n ≡ «open».old.n) × (strict.n ≡ «open».old.n) × LinkInRange version1 «open».old.n (link_of a) }
    ensures { Takes (follow_lowers version1 «open».old.n strict.entry.cells.now (link_at plan.entry.file.now plan.entry.m) plan.entry.k (link_of a)) «open».old «open».new }
{
    for j in 0..plan.k {
        follow_lower(strict, open, a, plan.link(j));
    }
}

// The strict cell to which Upper leads, for a link from the point x.
fn follow_upper(strict: View<'_, i32>, open: &mut Table<'_, i32>, a: Link, x: usize)
    requires { (x < «open».old.n) × (strict.n ≡ «open».old.n) × LinkInRange version1 «open».old.n (link_of a) }
    ensures { Takes (follow_upper version1 «open».old.n strict.entry.cells.now (link_of a) x) «open».old «open».new }
{
    let to = a.act as usize;
    new_edge(open, x, to, strict.get(x, to));
}

// From each point.
fn follow_uppers(strict: View<'_, i32>, open: &mut Table<'_, i32>, a: Link)
    requires { (strict.n ≡ «open».old.n) × LinkInRange version1 «open».old.n (link_of a) }
    ensures { Takes (follow_uppers version1 «open».old.n strict.entry.cells.now (link_of a)) «open».old «open».new }
{
    for x in 0..open.n {
        follow_upper(strict, open, a, x);
    }
}

// Both, for a link.
fn follow_link(plan: SoundPlan, strict: View<'_, i32>, open: &mut Table<'_, i32>, a: Link)
    requires { (plan.n ≡ «open».old.n) × (strict.n ≡ «open».old.n) × LinkInRange version1 «open».old.n (link_of a) }
    ensures { Takes (follow_link version1 «open».old.n strict.entry.cells.now (link_at plan.entry.file.now plan.entry.m) plan.entry.k (link_of a)) «open».old «open».new }
{
    follow_lowers(plan, strict, open, a);
    follow_uppers(strict, open, a);
}

// For each of the links.
pub fn open_round(plan: SoundPlan, strict: View<'_, i32>, open: &mut Table<'_, i32>)
    requires { (plan.n ≡ «open».old.n) × (strict.n ≡ «open».old.n) }
    ensures { Takes (open_round version1 «open».old.n strict.entry.cells.now (link_at plan.entry.file.now plan.entry.m) plan.entry.k) «open».old «open».new }
{
    for i in 0..plan.k {
        follow_link(plan, strict, open, plan.link(i));
    }
}
