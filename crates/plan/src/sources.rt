// Where the records of a plan are read from: a lent file here, lent lists in `writing`.
ghost use Rattle.std.specs.Prelude.{◌≡◌, ℕ};
ghost use Rattle.rules.specs.Plan.{Limit as Paper·Limit, Link as Paper·Link};
ghost use Rattle.plan.specs.Layout.{limit_at, link_at};
ghost use Rattle.plan.specs.Values.{limit_of, link_of};

use crate::record::{limit_at, link_at};
use crate::{Limit, Link};

// Limits and links, each by its index.
pub trait PlanRecords {
    // Which indices may be asked for, and what stands there.
    ghost has_limit: { Self → ℕ → Type 0 };

    ghost has_link: { Self → ℕ → Type 0 };

    ghost limits: { Self → ℕ → Paper·Limit };

    ghost links: { Self → ℕ → Paper·Link };

    // The limit at an index.
    fn limit(&self, i: u32) -> Limit
        requires { has_limit self.now i }
        ensures { limit_of result ≡ limits self.now i };

    // The link at an index.
    fn link(&self, i: u32) -> Link
        requires { has_link self.now i }
        ensures { link_of result ≡ links self.now i };
}

// The records of a lent file of m limits. Any index may be asked for: past the file's end a field counts as 0.
#[derive(Clone, Copy)]
pub struct FileRecords<'a> {
    pub file: &'a [u8],
    pub m: u32,
}

impl<'a> PlanRecords for FileRecords<'a> {
    ghost has_limit = { λ r i. Unit {0} };

    ghost has_link = { λ r i. Unit {0} };

    ghost limits = { λ r. limit_at r.file.now };

    ghost links = { λ r. link_at r.file.now r.m };

    fn limit(&self, i: u32) -> Limit {
        limit_at(self.file, i)
    }

    fn link(&self, i: u32) -> Link {
        link_at(self.file, self.m, i)
    }
}
