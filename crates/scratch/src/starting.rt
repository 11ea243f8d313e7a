// What Add's sweeps start from: the strict cells at 64 bits and the new limit in one part, the mark and the diagonal in the other.
ghost use Rattle.std.specs.Prelude.{◌+◌, ◌*◌, ◌≤◌, length};
ghost use Rattle.rules.specs.Plan.{version1, LimitInRange};
ghost use Rattle.plan.specs.Values.{limit_of};
ghost use Rattle.lowering.specs.Fair.{AllWithin};
ghost use Rattle.scratch.specs.Begun.{Begun};

use crate::copies::widen;
use joining::Table;
use plan::Limit;

// Both parts, from a strict table whose cells closed tables may hold.
pub fn begin(table: &[i32], t: &mut [i64], n: usize, l: Limit)
    requires { (n ≤ 64) × LimitInRange version1 n (limit_of l) × (n * n ≤ length table.now) × (n * n + n * n ≤ length t.old) × AllWithin version1 n table.now }
    ensures { Begun n (limit_of l) table.now t.old t.new }
{
    let (strict, open) = t.split_at_mut(n * n);
    widen(table, strict);
    let mut strict = Table { cells: strict, n };
    strict.limit_cell(l);
    let mut open = Table::marked(open, n);
    open.diagonal_all();
}
