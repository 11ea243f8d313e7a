// A lent table that is written: the tables to start with; one cell read and lowered; joins, every row by every middle, in the order middle, from, to.
ghost use Rattle.std.specs.Prelude.{◌≡◌, ◌+◌, ◌*◌, ◌≤◌, ◌<◌, length, get_or, pos};
ghost use Rattle.rules.specs.Plan.{version1, LimitInRange};
ghost use Rattle.rules.specs.Cells.{cell_of};
ghost use Rattle.plan.specs.Values.{limit_of};
ghost use Rattle.cell.specs.Steps.{Summed};
ghost use Rattle.lowering.specs.Table.{Sound};
ghost use Rattle.lowering.specs.Sweep.{lower_cell, join_row, join_middle, join_all, mark_all, diagonal_all, limit_cell};
ghost use Rattle.lowering.specs.Spread.{row_by};
ghost use Rattle.joining.specs.Lent.{Sound-prop};

use crate::cells::{get, lower_cell, mark_all, row_by};
use crate::view::View;
use cell::Word;
use plan::Limit;

// A lent list as a table of n x n cells. That its cells are ones that a sweep stores is part of the type.
#[derive(Drop)]
pub struct Table<'a, W: Word> {
    pub cells: &'a mut [W],
    pub n: usize,
    pub ghost few: { n ≤ 64 },
    pub ghost sound: { Sound W.ranges n (W.values cells.now) } by { Sound-prop W.ranges n (W.values cells.now) },
}

impl<'a, W: Word> Table<'a, W> {
    // A lent list with the mark in every cell.
    pub fn marked(cells: &'a mut [W], n: usize) -> Table<'a, W>
        requires { (n ≤ 64) × (n * n ≤ length (W.values cells.old)) }
        ensures same_list { result.cells.ghost_name ≡ cells.entry.ghost_name }
        ensures same_size { result.n ≡ n }
        ensures cells { W.values result.cells.now ≡ mark_all W.ranges (n * n) (W.values cells.old) }
    {
        mark_all(cells, n * n);
        Table { cells, n }
    }
}

impl<W: Word> Table<'_, W> {
    ghost use Rattle.joining.specs.Takes.{Takes};

    // The table to read.
    pub fn read(&self) -> View<'_, W>
        ensures { (result.n ≡ self.now.n) × (result.cells.now ≡ self.now.cells.now) }
    {
        View {
            cells: self.cells,
            n: self.n,
        }
    }

    // The cell x to y.
    pub fn get(&self, x: usize, y: usize) -> W
        requires { (x < self.now.n) × (y < self.now.n) }
        ensures { W.value result ≡ get_or (W.values self.now.cells.now) (x * self.now.n + y) (pos 0) }
    {
        get(self.cells, self.n, x, y)
    }

    // The cell x to y lowered to c where that is smaller.
    pub fn lower_cell(&mut self, x: usize, y: usize, c: W)
        requires { (x < self.old.n) × (y < self.old.n) }
        ensures { Takes (lower_cell W.ranges self.old.n x y (cell_of W.ranges.mark (W.value c))) self.old self.new }
    {
        lower_cell(self.cells, self.n, x, y, c);
    }

    // The diagonal at 0.
    pub fn diagonal_all(&mut self)
        ensures { Takes (diagonal_all W.ranges self.old.n) self.old self.new }
    {
        for x in 0..self.n {
            self.lower_cell(x, x, W::of(0));
        }
    }

    // The cell of a limit.
    pub fn limit_cell(&mut self, l: Limit)
        requires { LimitInRange version1 self.old.n (limit_of l) }
        ensures { Takes (limit_cell W.ranges self.old.n (limit_of l)) self.old self.new }
    {
        self.lower_cell(l.from as usize, l.to as usize, W::number(l.weight));
    }

    // Row x by the cells from y, with a what leads from x to y.
    pub fn row_by(&mut self, y: usize, x: usize, a: W)
        requires { (x < self.old.n) × (y < self.old.n) × Summed W.ranges.reach (cell_of W.ranges.mark (W.value a)) }
        ensures { Takes (row_by W.ranges self.old.n y x (cell_of W.ranges.mark (W.value a))) self.old self.new }
    {
        row_by(self.cells, self.n, y, x, a);
    }

    // Row x by the middle y, with the cell x to y taken out of the loop.
    fn join_row(&mut self, y: usize, x: usize)
        requires { (x < self.old.n) × (y < self.old.n) }
        ensures { Takes (join_row W.ranges self.old.n y x) self.old self.new }
    {
        let a = self.get(x, y);
        if !a.is_mark() {
            self.row_by(y, x, a);
        }
    }

    // Every row by the middle y. The middle's own row is apart, so that a compiler sees that no row of a loop is the one it reads, and takes several cells at once.
    fn join_middle(&mut self, y: usize)
        requires { y < self.old.n }
        ensures { Takes (join_middle W.ranges self.old.n y) self.old self.new }
    {
        'above: for x in 0..y {
            self.join_row(y, x);
        }
        self.join_row(y, y);
        'below: for x in y + 1..self.n {
            self.join_row(y, x);
        }
    }

    // Every row by every middle.
    pub fn join_all(&mut self)
        ensures { Takes (join_all W.ranges self.old.n) self.old self.new }
    {
        for y in 0..self.n {
            self.join_middle(y);
        }
    }
}
