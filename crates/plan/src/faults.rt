// Codes 6, 7 and 8 of one record: its first field at fault, and where in the file that begins.
ghost use Rattle.std.specs.Prelude.{◌≡◌, ◌≤◌};
ghost use Rattle.rules.specs.Plan.{version1};
ghost use Rattle.plan.specs.Values.{limit_of, link_of};
ghost use Rattle.plan.specs.File.{limit_answer, link_answer};

use crate::fits::weight_fits;
use crate::{Limit, Link};
use rules::{Answer, Refusal};

// The answer to a limit at an index, of a plan of n points.
pub fn limit_answer(n: u32, i: u32, limit: Limit) -> Answer
    requires { i ≤ version1.limits }
    ensures { result ≡ limit_answer version1 n i (limit_of limit) }
{
    let at = 24 + 12 * i;
    let from = limit.from < n;
    let to = limit.to < n;
    let weight = weight_fits(limit.weight);
    if !from {
        return Err(Refusal::BadLimit(at));
    }
    if !to {
        return Err(Refusal::BadLimit(at + 4));
    }
    if !weight {
        return Err(Refusal::BadLimit(at + 8));
    }
    Ok(())
}

// The answer to a link at an index, after m limits, of a plan of n points; `new` says whether no earlier link has its contingent point.
pub fn link_answer(n: u32, m: u32, i: u32, link: Link, new: bool) -> Answer
    requires { (m ≤ version1.limits) × (i ≤ version1.links) }
    ensures { result ≡ link_answer version1 n m i new (link_of link) }
{
    let at = 24 + 12 * m + 16 * i;
    let act = link.act < n;
    let con = (link.con < n) & (link.act != link.con) & (link.con != 0);
    let short = 1 <= link.short;
    let long = (link.short <= link.long) & (link.long <= 1_000_000);
    if !act {
        return Err(Refusal::BadLink(at));
    }
    if !con {
        return Err(Refusal::BadLink(at + 4));
    }
    if !short {
        return Err(Refusal::BadLink(at + 8));
    }
    if !long {
        return Err(Refusal::BadLink(at + 12));
    }
    if !new {
        return Err(Refusal::RepeatedLink(at + 4));
    }
    Ok(())
}
