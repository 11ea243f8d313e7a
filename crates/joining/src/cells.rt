// Lent lists of cells: one cell read and written, a row by a middle point, and the mark in the first cells.
ghost use Rattle.std.specs.Prelude.{◌≡◌, ◌+◌, ◌*◌, ◌≤◌, ◌<◌, length, get_or, set, pos};
ghost use Rattle.rules.specs.Cells.{cell_of};
ghost use Rattle.cell.specs.Steps.{Summed};
ghost use Rattle.lowering.specs.Table.{Sound};
ghost use Rattle.lowering.specs.Sweep.{lower_cell, mark_all};
ghost use Rattle.lowering.specs.Spread.{row_by};

use cell::Word;

// The cell at an index.
pub fn cell_at<W: Word>(t: &[W], i: usize) -> W
    requires { i < length (W.values t.now) }
    ensures { W.value result ≡ get_or (W.values t.now) i (pos 0) }
{
    t[i]
}

// The cell x to y of a list with room for a table.
pub fn get<W: Word>(t: &[W], n: usize, x: usize, y: usize) -> W
    requires { (x < n) × (y < n) × (n ≤ 64) × (n * n ≤ length (W.values t.now)) }
    ensures { W.value result ≡ get_or (W.values t.now) (x * n + y) (pos 0) }
{
    cell_at(t, x * n + y)
}

// The cell at an index written.
pub fn put<W: Word>(t: &mut [W], i: usize, c: W)
    requires { i < length (W.values t.old) }
    ensures { W.values t.new ≡ set (W.values t.old) i (W.value c) }
{
    t[i] = c;
}

// The cell x to y of a list with room for a table lowered to c where that is smaller.
pub fn lower_cell<W: Word>(t: &mut [W], n: usize, x: usize, y: usize, c: W)
    requires { (x < n) × (y < n) × (n ≤ 64) × (n * n ≤ length (W.values t.old)) }
    ensures { W.values t.new ≡ lower_cell W.ranges n x y (cell_of W.ranges.mark (W.value c)) (W.values t.old) }
{
    let new = c.kept().smaller(get(t, n, x, y));
    put(t, x * n + y, new);
}

// Row x of a list that is a table by the cells from y, with a what leads from x to y. It is handed the slice and the size, which a loop over a table would read
// anew at each cell: so a compiler takes several cells at once.
pub fn row_by<W: Word>(t: &mut [W], n: usize, y: usize, x: usize, a: W)
    requires { (x < n) × (y < n) × (n ≤ 64) × Sound W.ranges n (W.values t.old) × Summed W.ranges.reach (cell_of W.ranges.mark (W.value a)) }
    ensures { W.values t.new ≡ row_by W.ranges n y x (cell_of W.ranges.mark (W.value a)) (W.values t.old) }
{
    for z in 0..n {
        lower_cell(t, n, x, z, a.onward(get(t, n, y, z)));
    }
}

// The first cells all the mark.
pub fn mark_all<W: Word>(t: &mut [W], count: usize)
    requires { count ≤ length (W.values t.old) }
    ensures { W.values t.new ≡ mark_all W.ranges count (W.values t.old) }
{
    for i in 0..count {
        t[i] = W::MARK;
    }
}
