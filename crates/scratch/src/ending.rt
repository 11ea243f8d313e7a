// The result of the sweeps back into the lent tables, and the scratch cleared.
ghost use Rattle.std.specs.Prelude.{◌+◌, ◌*◌, ◌≤◌, length, pos};
ghost use Rattle.rules.specs.Calls.{Filled};
ghost use Rattle.scratch.specs.Swept.{open_part};
ghost use Rattle.scratch.specs.Copies.{Narrowed, InReach};

use crate::copies::{clear, narrow};

// Both parts into both tables.
pub fn finish(t: &mut [i64], strict: &mut [i32], open: &mut [i32], n: usize)
    requires { (n ≤ 64) × (n * n + n * n ≤ length t.old) × (n * n ≤ length strict.old) × (n * n ≤ length «open».old) × InReach (n * n + n * n) t.old }
    ensures { Narrowed (n * n) t.old strict.old strict.new × Narrowed (n * n) (open_part n t.old) «open».old «open».new × Filled (n * n + n * n) (pos 0) t.old t.new }
{
    let cells = n * n;
    narrow(t, strict, cells);
    narrow(&t[cells..], open, cells);
    clear(t, cells + cells);
}
