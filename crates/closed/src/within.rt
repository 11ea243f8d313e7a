// Each table by itself: its cells in range, its diagonal 0.
ghost use Rattle.std.specs.Prelude.{◌≡◌, ◌*◌, ◌≤◌, ◌<◌, length, pos, MatchOption};
ghost use Rattle.rules.specs.Plan.{version1};
ghost use Rattle.rules.specs.Cells.{num, Within, table_of};
ghost use Rattle.cell.specs.Steps.{Decides};
ghost use Rattle.closed.specs.Parts.{RowWithin, AllWithin, Diagonal};

use crate::bounds::under;
use cell::Word;
use joining::{View, get};

// Whether every cell of row x is in range.
fn row_within(cells: &[i32], n: usize, x: usize) -> bool
    requires { (x < n) × (n * n ≤ length cells.now) × (n ≤ 64) }
    ensures { Decides result (RowWithin version1.reach n (table_of version1 n cells.now) x) }
{
    for y in 0..n {
        if !get(cells, n, x, y).in_reach() {
            return false;
        }
    }
    true
}

// Whether every cell is in range.
fn all_within(cells: &[i32], n: usize) -> bool
    requires { (n * n ≤ length cells.now) × (n ≤ 64) }
    ensures { Decides result (AllWithin version1.reach n (table_of version1 n cells.now)) }
{
    for x in 0..n {
        if !row_within(cells, n, x) {
            return false;
        }
    }
    true
}

// The table to read, where every cell is in range.
pub fn within(cells: &[i32], n: usize) -> Option<View<'_, i32>>
    requires { (n * n ≤ length cells.now) × (n ≤ 64) }
    ensures { MatchOption result (AllWithin version1.reach n (table_of version1 n cells.now) → ⊥) (λ t. AllWithin version1.reach n (table_of version1 n cells.now) × (t.n ≡ n) × (t.cells.now ≡ cells.now)) }
{
    if !all_within(cells, n) {
        return None;
    }
    Some(View { cells, n })
}

// Whether the cell x to x is 0: it does not exceed 0, and 0 does not exceed it.
fn cell_zero(t: View<'_, i32>, x: usize) -> bool
    requires { x < t.n }
    ensures { Decides result (table_of version1 t.entry.n t.entry.cells.now x x ≡ num (pos 0)) }
{
    let c = t.get(x, x);
    under(c, 0) && under(0, c)
}

// Whether the diagonal is 0.
pub fn diagonal(t: View<'_, i32>) -> bool
    ensures { Decides result (Diagonal t.entry.n (table_of version1 t.entry.n t.entry.cells.now)) }
{
    for x in 0..t.n {
        if !cell_zero(t, x) {
            return false;
        }
    }
    true
}
