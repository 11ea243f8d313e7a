// From one width to the other, and the number of a line of a reason list in a cell.
ghost use Rattle.std.specs.Prelude.{◌≡◌, ◌≤◌, pos};
ghost use Rattle.rules.specs.Plan.{version1};
ghost use Rattle.rules.specs.Cells.{Within};
ghost use Rattle.cell.specs.Steps.{roomy, cell32, cell64, Decides};

use crate::word::Word;

// A cell of the paper's tables, at 64 bits.
pub fn widened(c: i32) -> i64
    ensures { cell64 result ≡ cell32 c }
{
    if c.is_mark() {
        return i64::MARK;
    }
    c as i64
}

// A cell that closed tables of the paper may hold, at 32 bits.
pub fn narrowed(c: i64) -> i32
    requires { Within version1.reach (cell64 c) }
    ensures { cell32 result ≡ cell64 c }
{
    if c.is_mark() {
        return i32::MARK;
    }
    c as i32
}

// Whether closed tables of the paper may hold this cell.
pub fn in_narrow_reach(c: i64) -> bool
    ensures { Decides result (Within version1.reach (cell64 c)) }
{
    c.between(-63000000, 63000000)
}

// The number of a line of a reason list in a cell.
pub fn of_line(n: u64) -> i64
    requires { n ≤ roomy.reach }
    ensures { result ≡ pos n }
{
    n as i64
}
