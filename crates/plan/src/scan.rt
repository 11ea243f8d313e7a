// The records in file order: codes 6, 7 and 8, of the first bad one.
ghost use Rattle.std.specs.Prelude.{◌≡◌, ℕ, [], ◌≤◌, ◌<◌};
ghost use Rattle.rules.specs.Plan.{version1};
ghost use Rattle.plan.specs.Layout.{records, earlier};
ghost use Rattle.plan.specs.File.{fresh as File·fresh, limits_answer, links_answer};

use crate::faults::{limit_answer, link_answer};
use crate::sources::PlanRecords;
use rules::Answer;

// The answer to the first m limits, of a plan of n points.
pub fn limits<R: PlanRecords>(from: &R, n: u32, m: u32) -> Answer
    requires few { m ≤ version1.limits }
    requires there { (i : ℕ) → i < m → R.has_limit from.now i }
    ensures { result ≡ limits_answer version1 n 0 (records (R.limits from.now) 0 m) }
{
    for i in 0..m {
        limit_answer(n, i, from.limit(i))?;
    }
    Ok(())
}

// Whether a point is the contingent point of none of the first i links. It looks back from the last of them.
fn fresh<R: PlanRecords>(from: &R, i: u32, con: u32) -> bool
    requires { (j : ℕ) → j < i → R.has_link from.now j }
    ensures { result ≡ File·fresh con (earlier (R.links from.now) i) }
{
    for j in (0..i).rev() {
        if from.link(j).con == con {
            return false;
        }
    }
    true
}

// The answer to the first k links, after m limits, of a plan of n points.
pub fn links<R: PlanRecords>(from: &R, n: u32, m: u32, k: u32) -> Answer
    requires few { (m ≤ version1.limits) × (k ≤ version1.links) }
    requires there { (i : ℕ) → i < k → R.has_link from.now i }
    ensures { result ≡ links_answer version1 n m 0 [] (records (R.links from.now) 0 k) }
{
    for i in 0..k {
        let link = from.link(i);
        let new = fresh(from, i, link.con);
        link_answer(n, m, i, link, new)?;
    }
    Ok(())
}
