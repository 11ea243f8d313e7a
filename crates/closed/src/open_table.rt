// The open table against the strict one and the lower-case edges.
ghost use Rattle.std.specs.Prelude.{◌≡◌, ◌<◌};
ghost use Rattle.rules.specs.Plan.{version1, LinkInRange};
ghost use Rattle.rules.specs.Cells.{table_of};
ghost use Rattle.plan.specs.Layout.{link_at};
ghost use Rattle.plan.specs.Values.{link_of};
ghost use Rattle.cell.specs.Steps.{Decides};
ghost use Rattle.closed.specs.Parts.{RowUnder, AllUnder, CaseHeld, CasesHeld};

use crate::bounds::at_most;
use cell::Word;
use joining::View;
use plan::Link;
use reader::SoundPlan;

// Row x: no open cell exceeds the strict one.
fn row_under(strict: View<'_, i32>, open: View<'_, i32>, x: usize) -> bool
    requires { (x < strict.n) × («open».n ≡ strict.n) }
    ensures { Decides result (RowUnder strict.entry.n (table_of version1 strict.entry.n strict.entry.cells.now) (table_of version1 «open».entry.n «open».entry.cells.now) x) }
{
    for y in 0..strict.n {
        if !at_most(open, x, y, strict.get(x, y)) {
            return false;
        }
    }
    true
}

// Every row.
pub fn all_under(strict: View<'_, i32>, open: View<'_, i32>) -> bool
    requires { «open».n ≡ strict.n }
    ensures { Decides result (AllUnder strict.entry.n (table_of version1 strict.entry.n strict.entry.cells.now) (table_of version1 «open».entry.n «open».entry.cells.now)) }
{
    for x in 0..strict.n {
        if !row_under(strict, open, x) {
            return false;
        }
    }
    true
}

// The lower-case edge of a link.
fn case_held(t: View<'_, i32>, link: Link) -> bool
    requires { LinkInRange version1 t.n (link_of link) }
    ensures { Decides result (CaseHeld (table_of version1 t.entry.n t.entry.cells.now) (link_of link)) }
{
    at_most(t, link.act as usize, link.con as usize, i32::of(link.short))
}

// The lower-case edge of every link.
pub fn cases_held(plan: SoundPlan<'_>, t: View<'_, i32>) -> bool
    requires { t.n ≡ plan.n }
    ensures { Decides result (CasesHeld (link_at plan.entry.file.now plan.entry.m) plan.entry.k (table_of version1 t.entry.n t.entry.cells.now)) }
{
    for i in 0..plan.k {
        if !case_held(t, plan.link(i)) {
            return false;
        }
    }
    true
}
