// The reader struct: a plan file that is lent, held with its counts, giving limit i and link i where they lie.
// Each function is thin: `counted` makes the reader, `limit` and `link` take it apart and call the function on the slice and the numbers. The last two
// have plain parameters. Whatever works on a plan is handed a `SoundPlan` (sound.rt), which only a sound file has.
#![tactic(auto)]

mod reading;
mod sound;

ghost use Rattle.std.specs.Prelude.{◌≡◌};
ghost use Rattle.plan.specs.Layout.{limit_at, link_at};
ghost use Rattle.plan.specs.Values.{limit_of, link_of};
ghost use Rattle.reader.specs.Reads.{holding, ReaderOf};

pub use reading::{known, read};
pub use sound::SoundPlan;

// A lent plan file with its numbers of points, limits and links.
#[derive(Clone, Copy)]
pub struct PlanReader<'a> {
    pub file: &'a [u8],
    pub n: usize,
    pub m: u32,
    pub k: u32,
}

// The reader of a file whose counts are at hand: nothing is read.
pub fn counted<'a>(file: &'a [u8], n: usize, m: u32, k: u32) -> PlanReader<'a>
    ensures { result ≡ holding file.entry n m k }
{
    PlanReader { file, n, m, k }
}

// The reader of a file, whose header is read once for the counts.
pub fn made<'a>(file: &'a [u8]) -> PlanReader<'a>
    ensures { ReaderOf file.entry result }
{
    let h = plan::head(file);
    counted(file, h.points as usize, h.limits, h.links)
}

// Limit i.
pub fn limit<'a>(r: PlanReader<'a>, i: u32) -> plan::Limit
    ensures { limit_of result ≡ limit_at r.entry.file.now i }
{
    plan::limit_at(r.file, i)
}

// Link i.
pub fn link<'a>(r: PlanReader<'a>, i: u32) -> plan::Link
    ensures { link_of result ≡ link_at r.entry.file.now r.entry.m i }
{
    plan::link_at(r.file, r.m, i)
}

// Limit i of a file, through the reader of the counts at hand.
pub fn limit_of(file: &[u8], n: usize, m: u32, k: u32, i: u32) -> plan::Limit
    ensures { limit_of result ≡ limit_at file.now i }
{
    limit(counted(file, n, m, k), i)
}

// Link i of a file, through the reader of the counts at hand: the reader knows how many limits stand before the links.
pub fn link_of(file: &[u8], n: usize, m: u32, k: u32, i: u32) -> plan::Link
    ensures { link_of result ≡ link_at file.now m i }
{
    link(counted(file, n, m, k), i)
}
