// Lower and Upper, from the best strict lines.
ghost use Rattle.std.specs.Prelude.{◌≡◌, ◌≤◌, ◌<◌, IfSome};
ghost use Rattle.plan.specs.Layout.{link_at};
ghost use Rattle.chain.specs.Reasons.{longest_at, lower_case_at, lower_offer, upper_offer};
ghost use Rattle.offers.specs.Work.{Known};
ghost use Rattle.offers.specs.Drafts.{Offers, Plain};

use crate::bests::Bests;
use crate::{Draft, Kind};
use cell::Word;
use reader::SoundPlan;
use rules::Side;

// Lower of link i and the second link j, with g lines before those of the links.
pub fn lower_draft(plan: SoundPlan, work: Bests, g: u64, i: u32, j: u32) -> Option<Draft>
    requires { (work.n ≡ plan.n) × (i < plan.k) × (j < plan.k) × (g ≤ 4096) × Known work.n work.cells.now }
    ensures { Offers work.entry.n work.entry.cells.now (lower_offer (lower_case_at g i) (link_at plan.entry.file.now plan.entry.m i) (link_at plan.entry.file.now plan.entry.m j)) result × IfSome result (Plain work.entry.n) }
{
    let a = plan.link(i);
    let b = plan.link(j);
    if b.con == a.con {
        return None;
    }
    let w = work
        .weight(Side::Strict, a.con, b.con)
        .lower(a.short, b.long - b.short);
    if w.is_mark() {
        return None;
    }
    Some(Draft {
        kind: Kind::Lower,
        from: a.act,
        to: b.con,
        weight: w,
        first: g + 3 * (i as u64) + 2,
        second: work.line(Side::Strict, a.con, b.con),
    })
}

// Upper from the point x for link i. The 0 of the link's own contingent point is no line, so nothing is made from it.
pub fn upper_draft(plan: SoundPlan, work: Bests, g: u64, x: u32, i: u32) -> Option<Draft>
    requires { (work.n ≡ plan.n) × (x < work.n) × (i < plan.k) × (g ≤ 4096) × Known work.n work.cells.now }
    ensures { Offers work.entry.n work.entry.cells.now (upper_offer (longest_at g i) x (link_at plan.entry.file.now plan.entry.m i)) result × IfSome result (Plain work.entry.n) }
{
    let a = plan.link(i);
    if x == a.con {
        return None;
    }
    let w = work.weight(Side::Strict, x, a.con).upper(a.short, a.long);
    if w.is_mark() {
        return None;
    }
    Some(Draft {
        kind: Kind::Upper,
        from: x,
        to: a.act,
        weight: w,
        first: work.line(Side::Strict, x, a.con),
        second: g + 3 * (i as u64),
    })
}
