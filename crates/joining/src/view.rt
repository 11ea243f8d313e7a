// A lent table that is only read: one cell; whether a cell is under the reach or a diagonal cell below 0, and how far the cells can still fall.
ghost use Rattle.std.specs.Prelude.{⊤, ◌≡◌, ◌+◌, ◌*◌, ◌≤◌, ◌<◌, get_or, pos};
ghost use Rattle.lowering.specs.Table.{Sound};
ghost use Rattle.lowering.specs.Sweep.{heights};
ghost use Rattle.lowering.specs.Fair.{AllWithin, NoneNegative, Fair, Unfair, Looked};
ghost use Rattle.joining.specs.Lent.{Sound-prop};

use crate::cells::{cell_at, get};
use cell::Word;
use std::alloc::AllocError;

// A lent list as a table of n x n cells to read. That its cells are ones that a sweep stores is part of the type.
pub struct View<'a, W: Word> {
    pub cells: &'a [W],
    pub n: usize,
    pub ghost few: { n ≤ 64 },
    pub ghost sound: { Sound W.ranges n (W.values cells.now) } by { Sound-prop W.ranges n (W.values cells.now) },
}

impl<W: Word> Copy for View<'_, W> {}

impl<W: Word> Clone for View<'_, W> {
    ghost is_clone = { λ x y. y ≡ x };

    ghost is_infallible = { λ _. ⊤ };

    fn clone(&self) -> Result<Self, AllocError> {
        Ok(*self)
    }
}

impl<W: Word> View<'_, W> {
    // The cell x to y.
    pub fn get(self, x: usize, y: usize) -> W
        requires { (x < self.n) × (y < self.n) }
        ensures { W.value result ≡ get_or (W.values self.entry.cells.now) (x * self.entry.n + y) (pos 0) }
    {
        get(self.cells, self.n, x, y)
    }

    // Whether no cell is under the reach.
    fn all_within(self) -> bool
        ensures { Looked result (AllWithin W.ranges self.entry.n (W.values self.entry.cells.now)) (Unfair W.ranges self.entry.n (W.values self.entry.cells.now)) }
    {
        for i in 0..self.n * self.n {
            if !cell_at(self.cells, i).in_reach() {
                return false;
            }
        }
        true
    }

    // Whether no cell of the diagonal is below 0.
    fn none_negative(self) -> bool
        ensures { Looked result (NoneNegative W.ranges self.entry.n (W.values self.entry.cells.now)) (Unfair W.ranges self.entry.n (W.values self.entry.cells.now)) }
    {
        for x in 0..self.n {
            if self.get(x, x).below(W::of(0)) {
                return false;
            }
        }
        true
    }

    // Whether nothing in a table speaks against the plan.
    pub fn fair(self) -> bool
        ensures { Looked result (Fair W.ranges self.entry.n (W.values self.entry.cells.now)) (Unfair W.ranges self.entry.n (W.values self.entry.cells.now)) }
    {
        if !self.all_within() {
            return false;
        }
        self.none_negative()
    }

    // How far all cells can still fall, together.
    pub fn height_all(self) -> u64
        ensures { result ≡ heights W.ranges (self.entry.n * self.entry.n) (W.values self.entry.cells.now) }
    {
        let mut sum = 0;
        for i in 0..self.n * self.n {
            sum += cell_at(self.cells, i).height();
        }
        sum
    }
}
