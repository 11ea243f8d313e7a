// The open table under the strict one.
ghost use Rattle.std.specs.Prelude.{◌≡◌, ◌<◌};
ghost use Rattle.cell.specs.Steps.{adding};
ghost use Rattle.lowering.specs.Sweep.{open_row, open_all};
ghost use Rattle.joining.specs.Takes.{Takes};

use joining::{Table, View};

// Row x.
fn open_row(strict: View<'_, i64>, open: &mut Table<'_, i64>, x: usize)
    requires { (x < «open».old.n) × (strict.n ≡ «open».old.n) }
    ensures { Takes (open_row adding «open».old.n strict.entry.cells.now x) «open».old «open».new }
{
    for y in 0..strict.n {
        open.lower_cell(x, y, strict.get(x, y));
    }
}

// Every row.
pub fn open_under(strict: View<'_, i64>, open: &mut Table<'_, i64>)
    requires { strict.n ≡ «open».old.n }
    ensures { Takes (open_all adding «open».old.n strict.entry.cells.now) «open».old «open».new }
{
    for x in 0..strict.n {
        open_row(strict, open, x);
    }
}
