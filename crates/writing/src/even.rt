// Lists that belong together and are of one length, from which limit i and link i are read.
ghost use Rattle.std.specs.Prelude.{◌≡◌, ◌<◌, length};
ghost use Rattle.writing.specs.PlanLists.{limit_in, link_in};
ghost use Rattle.writing.specs.Puts.{ListsOk, lent};
ghost use Rattle.writing.specs.RoundTrips.{size_of};

use crate::lists::PlanLists;
use plan::{Limit, Link, PlanRecords};

// Lists that are as long as the first of their kind, with limits and links in range. That they are so is part of the type.
#[derive(Clone, Copy)]
pub struct EvenLists<'a> {
    pub lists: PlanLists<'a>,
    pub ghost even: { ListsOk (lent lists) },
}

#[tactic(auto, unfolding(rules::specs::Plan::version1))]
impl<'a> EvenLists<'a> {
    // The number of limits.
    pub fn m(self) -> u32
        ensures { result ≡ length self.entry.lists.from.now }
    {
        self.lists.from.len() as u32
    }

    // The number of links.
    pub fn k(self) -> u32
        ensures { result ≡ length self.entry.lists.act.now }
    {
        self.lists.act.len() as u32
    }

    // The length of the plan's file.
    pub fn size(self) -> usize
        ensures { result ≡ size_of (lent self.entry.lists) }
    {
        24 + 12 * self.lists.from.len() + 16 * self.lists.act.len()
    }
}

#[tactic(auto, unfolding(crate::specs::PlanLists::limit_in, crate::specs::PlanLists::link_in))]
impl<'a> PlanRecords for EvenLists<'a> {
    ghost has_limit = { λ e i. i < length e.lists.from.now };

    ghost has_link = { λ e i. i < length e.lists.act.now };

    ghost limits = { λ e. limit_in e.lists.from.now e.lists.to.now e.lists.weight.now };

    ghost links = { λ e. link_in e.lists.act.now e.lists.con.now e.lists.short.now e.lists.long.now };

    fn limit(&self, i: u32) -> Limit {
        let at = i as usize;
        Limit {
            from: self.lists.from[at],
            to: self.lists.to[at],
            weight: self.lists.weight[at],
        }
    }

    fn link(&self, i: u32) -> Link {
        let at = i as usize;
        Link {
            act: self.lists.act[at],
            con: self.lists.con[at],
            short: self.lists.short[at],
            long: self.lists.long[at],
        }
    }
}
