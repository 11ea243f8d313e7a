// What is given: start edges, limits, and the three lines of a link.
ghost use Rattle.std.specs.Prelude.{◌≡◌, true, List, ◌<◌};
ghost use Rattle.plan.specs.Layout.{limit_at, link_at};
ghost use Rattle.chain.specs.Lines.{Line, start_line, limit_line};
ghost use Rattle.chain.specs.Reasons.{line, link_offer, always};
ghost use Rattle.offers.specs.Kinds.{kind_number};
ghost use Rattle.offers.specs.Drafts.{made_of, Notable};

use crate::{Draft, Kind};
use cell::{Word, widened};
use reader::SoundPlan;

// The start edge of a point.
pub fn start_draft(x: u32) -> Draft
    ensures { made_of result ≡ start_line x }
{
    Draft {
        kind: Kind::Start,
        from: x,
        to: 0,
        weight: 0,
        first: 0,
        second: 0,
    }
}

// Limit i.
pub fn limit_draft(plan: SoundPlan, i: u32) -> Draft
    requires { i < plan.m }
    ensures { made_of result ≡ limit_line i (limit_at plan.entry.file.now i) }
{
    let l = plan.limit(i);
    Draft {
        kind: Kind::Limit,
        from: l.from,
        to: l.to,
        weight: widened(l.weight),
        first: i as u64,
        second: 0,
    }
}

// The longest line of link i.
pub fn longest_draft(plan: SoundPlan, i: u32) -> Draft
    requires { i < plan.k }
    ensures { ((ls : List Line) → link_offer i (link_at plan.entry.file.now plan.entry.m i) 0 ls ≡ line (made_of result)) × Notable plan.entry.n result × (always (kind_number result.kind) ≡ true) }
{
    let a = plan.link(i);
    Draft {
        kind: Kind::Longest,
        from: a.act,
        to: a.con,
        weight: i64::of(a.long),
        first: i as u64,
        second: 0,
    }
}

// The shortest line of link i.
pub fn shortest_draft(plan: SoundPlan, i: u32) -> Draft
    requires { i < plan.k }
    ensures { ((ls : List Line) → link_offer i (link_at plan.entry.file.now plan.entry.m i) 1 ls ≡ line (made_of result)) × Notable plan.entry.n result × (always (kind_number result.kind) ≡ true) }
{
    let a = plan.link(i);
    Draft {
        kind: Kind::Shortest,
        from: a.con,
        to: a.act,
        weight: i64::of(a.short).negated(),
        first: i as u64,
        second: 0,
    }
}

// The lower-case line of link i.
pub fn lower_case_draft(plan: SoundPlan, i: u32) -> Draft
    requires { i < plan.k }
    ensures { ((ls : List Line) → link_offer i (link_at plan.entry.file.now plan.entry.m i) 2 ls ≡ line (made_of result)) × Notable plan.entry.n result × (always (kind_number result.kind) ≡ true) }
{
    let a = plan.link(i);
    Draft {
        kind: Kind::LowerCase,
        from: a.act,
        to: a.con,
        weight: i64::of(a.short),
        first: i as u64,
        second: 0,
    }
}
