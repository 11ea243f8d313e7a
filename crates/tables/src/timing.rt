// The earliest times: "time of X is minus the strict cell from X to 0".
ghost use Rattle.std.specs.Prelude.{◌≡◌, ◌≤◌, length};
ghost use Rattle.rules.specs.Plan.{Plan, version1};
ghost use Rattle.rules.specs.Calls.{TimesOf};
ghost use Rattle.lowering.specs.Table.{Sound};

use cell::Word;
use joining::get;

// A time for each point, of any plan of n points.
pub fn times_all(strict: &[i32], n: usize, times: &mut [i32])
    requires { (n ≤ 64) × Sound version1 n strict.now × (n ≤ length times.old) }
    ensures { (p : Plan) → p.points ≡ n → TimesOf version1 p strict.now times.old times.new }
{
    for x in 0..n {
        times[x] = get(strict, n, x, 0).negated();
    }
}
