// A plan: the bytes of a sound file where they lie, with its counts.
ghost use Rattle.std.specs.Prelude.{◌≡◌};
ghost use Rattle.plan.specs.Layout.{limit_at, link_at};
ghost use Rattle.plan.specs.Values.{limit_of, link_of};
ghost use Rattle.plan.specs.Ready.{Ready};

use crate::{limit_of, link_of};
use plan::{Limit, Link};

// A lent plan file of n points, m limits and k links. That the file is sound and has those counts is part of the type.
#[derive(Clone, Copy)]
pub struct SoundPlan<'a> {
    pub file: &'a [u8],
    pub n: usize,
    pub m: u32,
    pub k: u32,
    pub ghost ready: { Ready file.now n m k },
}

impl<'a> SoundPlan<'a> {
    // Limit i.
    pub fn limit(self, i: u32) -> Limit
        ensures { limit_of result ≡ limit_at self.entry.file.now i }
    {
        limit_of(self.file, self.n, self.m, self.k, i)
    }

    // Link i.
    pub fn link(self, i: u32) -> Link
        ensures { link_of result ≡ link_at self.entry.file.now self.entry.m i }
    {
        link_of(self.file, self.n, self.m, self.k, i)
    }
}
