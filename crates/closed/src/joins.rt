// Each table by itself: no cell exceeds the sum of two cells along a middle point.
ghost use Rattle.std.specs.Prelude.{◌<◌};
ghost use Rattle.rules.specs.Plan.{version1};
ghost use Rattle.rules.specs.Cells.{table_of};
ghost use Rattle.cell.specs.Steps.{Decides};
ghost use Rattle.closed.specs.Parts.{RowJoined, MiddleJoined, AllJoined};

use crate::bounds::at_most;
use cell::Word;
use joining::View;

// Row x by the middle y, with the cell x to y taken out of the loop. Where there is no path to the middle, nothing is asked. Every cell of the row is looked at, so
// that a compiler may take several at once.
fn row_joined(t: View<'_, i32>, y: usize, x: usize) -> bool
    requires { (x < t.n) × (y < t.n) }
    ensures { Decides result (RowJoined t.entry.n (table_of version1 t.entry.n t.entry.cells.now) y x) }
{
    let a = t.get(x, y);
    if a.is_mark() {
        return true;
    }
    let mut held = true;
    for z in 0..t.n {
        held &= at_most(t, x, z, a.add(t.get(y, z)));
    }
    held
}

// Every row by the middle y.
fn middle_joined(t: View<'_, i32>, y: usize) -> bool
    requires { y < t.n }
    ensures { Decides result (MiddleJoined t.entry.n (table_of version1 t.entry.n t.entry.cells.now) y) }
{
    for x in 0..t.n {
        if !row_joined(t, y, x) {
            return false;
        }
    }
    true
}

// Every row by every middle.
pub fn all_joined(t: View<'_, i32>) -> bool
    ensures { Decides result (AllJoined t.entry.n (table_of version1 t.entry.n t.entry.cells.now)) }
{
    for y in 0..t.n {
        if !middle_joined(t, y) {
            return false;
        }
    }
    true
}
