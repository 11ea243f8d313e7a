// The header, limit i and link i, read where they lie in a lent file.
ghost use Rattle.std.specs.Prelude.{◌≡◌};
ghost use Rattle.plan.specs.Layout.{head_of, limit_at, link_at};
ghost use Rattle.plan.specs.Values.{limit_of, link_of};

use crate::{Header, Limit, Link};
use fields::{signed_at, unsigned_at};

// The header.
pub fn head(file: &[u8]) -> Header
    ensures { result ≡ head_of file.now }
{
    Header {
        version: unsigned_at(file, 0),
        points: unsigned_at(file, 4),
        limits: unsigned_at(file, 8),
        links: unsigned_at(file, 12),
        limits_at: unsigned_at(file, 16),
        links_at: unsigned_at(file, 20),
    }
}

// The limit at an index.
pub fn limit_at(file: &[u8], i: u32) -> Limit
    ensures { limit_of result ≡ limit_at file.now i }
{
    let at = 24 + 12 * (i as usize);
    Limit {
        from: unsigned_at(file, at),
        to: unsigned_at(file, at + 4),
        weight: signed_at(file, at + 8),
    }
}

// The link at an index, after m limits.
pub fn link_at(file: &[u8], m: u32, i: u32) -> Link
    ensures { link_of result ≡ link_at file.now m i }
{
    let at = 24 + 12 * (m as usize) + 16 * (i as usize);
    Link {
        act: unsigned_at(file, at),
        con: unsigned_at(file, at + 4),
        short: unsigned_at(file, at + 8),
        long: unsigned_at(file, at + 12),
    }
}
