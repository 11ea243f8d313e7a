// Cells from one width to the other, the look at a result, and the scratch cleared.
ghost use Rattle.std.specs.Prelude.{◌≤◌, length, pos};
ghost use Rattle.rules.specs.Calls.{Filled};
ghost use Rattle.lowering.specs.Fair.{Looked};
ghost use Rattle.scratch.specs.Copies.{SameCells, Narrowed, InReach, OutOfReach};

use cell::{in_narrow_reach, narrowed, widened};

// The first cells of a 32-bit table into all of a list. By index, since nothing is known of what a zip writes.
pub fn widen(table: &[i32], t: &mut [i64])
    requires { length t.old ≤ length table.now }
    ensures { SameCells (length t.old) t.new table.now }
{
    for i in 0..t.len() {
        t[i] = widened(table[i]);
    }
}

// Cells that closed tables may hold, back into a 32-bit table.
pub fn narrow(t: &[i64], table: &mut [i32], count: usize)
    requires { (count ≤ length t.now) × (count ≤ length table.old) × InReach count t.now }
    ensures { Narrowed count t.now table.old table.new }
{
    for i in 0..count {
        table[i] = narrowed(t[i]);
    }
}

// Whether closed tables may hold each of the first cells.
pub fn all_in_reach(t: &[i64], count: usize) -> bool
    requires { count ≤ length t.now }
    ensures { Looked result (InReach count t.now) (OutOfReach count t.now) }
{
    for c in &t[..count] {
        if !in_narrow_reach(*c) {
            return false;
        }
    }
    true
}

// The first cells all 0.
pub fn clear(t: &mut [i64], count: usize)
    requires { count ≤ length t.old }
    ensures { Filled count (pos 0) t.old t.new }
{
    t[..count].fill(0);
}
