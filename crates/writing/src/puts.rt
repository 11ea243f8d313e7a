// Header, limits and links of even lists, written into a buffer that has room for them.
ghost use Rattle.std.specs.Prelude.{◌≡◌, ◌+◌, ◌≤◌, length};
ghost use mathlib.Core.List.{[], ◌∷◌, flat_map};
ghost use Rattle.plan.specs.Layout.{limit_offset, head_fields, limit_fields, link_fields};
ghost use Rattle.plan.specs.Values.{limit_of, link_of};
ghost use Rattle.writing.specs.PlanLists.{listed_plan};
ghost use Rattle.writing.specs.Puts.{lent, put_fields};
ghost use Rattle.writing.specs.RoundTrips.{size_of};

use crate::even::EvenLists;
use fields::{bits, put};
use plan::{Limit, Link, PlanRecords};

// Three fields from a position on.
fn put_three(buffer: &mut [u8], at: usize, a: u32, b: u32, c: u32)
    requires { at + 12 ≤ length buffer.old }
    ensures { buffer.new ≡ put_fields buffer.old at (a ∷ b ∷ c ∷ []) }
{
    put(buffer, at, a);
    put(buffer, at + 4, b);
    put(buffer, at + 8, c);
}

// The header.
pub fn put_head(buffer: &mut [u8], even: EvenLists)
    requires { limit_offset 0 ≤ length buffer.old }
    ensures { buffer.new ≡ put_fields buffer.old 0 (head_fields even.entry.lists.n (length even.entry.lists.from.now) (length even.entry.lists.act.now)) }
{
    let m = even.m();
    put_three(buffer, 0, 1, even.lists.n, m);
    put_three(buffer, 12, even.k(), 24, 24 + 12 * m);
}

// A limit at a position.
fn put_limit(buffer: &mut [u8], at: usize, limit: Limit)
    requires { at + 12 ≤ length buffer.old }
    ensures { buffer.new ≡ put_fields buffer.old at (limit_fields (limit_of limit)) }
{
    put_three(buffer, at, limit.from, limit.to, bits(limit.weight));
}

// A link at a position.
fn put_link(buffer: &mut [u8], at: usize, link: Link)
    requires { at + 16 ≤ length buffer.old }
    ensures { buffer.new ≡ put_fields buffer.old at (link_fields (link_of link)) }
{
    put(buffer, at, link.act);
    put(buffer, at + 4, link.con);
    put(buffer, at + 8, link.short);
    put(buffer, at + 12, link.long);
}

// The limits, where a file's limits begin.
pub fn put_limits(buffer: &mut [u8], even: EvenLists)
    requires { limit_offset (length even.lists.from.now) ≤ length buffer.old }
    ensures { buffer.new ≡ put_fields buffer.old (limit_offset 0) (flat_map limit_fields (listed_plan (lent even.entry.lists)).limits) }
{
    for i in 0..even.m() {
        put_limit(buffer, 24 + 12 * (i as usize), even.limit(i));
    }
}

// The links, where a file's links begin after its limits.
pub fn put_links(buffer: &mut [u8], even: EvenLists)
    requires { size_of (lent even.lists) ≤ length buffer.old }
    ensures { buffer.new ≡ put_fields buffer.old (limit_offset (length even.entry.lists.from.now)) (flat_map link_fields (listed_plan (lent even.entry.lists)).links) }
{
    let first = 24 + 12 * (even.m() as usize);
    for i in 0..even.k() {
        put_link(buffer, first + 16 * (i as usize), even.link(i));
    }
}
