// One cell against what it may not exceed, at either width.
ghost use Rattle.std.specs.Prelude.{◌<◌};
ghost use Rattle.rules.specs.Cells.{◌≤ᶜ◌, cell_of, table_of};
ghost use Rattle.cell.specs.Steps.{Decides};

use cell::Word;
use joining::View;

// Whether a cell does not exceed another, with the mark above every number.
pub fn under<W: Word>(a: W, b: W) -> bool
    ensures { Decides result (cell_of W.ranges.mark (W.value a) ≤ᶜ cell_of W.ranges.mark (W.value b)) }
{
    !b.below(a)
}

// Whether the cell x to y of a table does not exceed c.
pub fn at_most<W: Word>(t: View<'_, W>, x: usize, y: usize, c: W) -> bool
    requires { (x < t.n) × (y < t.n) }
    ensures { Decides result (table_of W.ranges t.entry.n (W.values t.entry.cells.now) x y ≤ᶜ cell_of W.ranges.mark (W.value c)) }
{
    under(t.get(x, y), c)
}
