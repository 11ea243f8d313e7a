// What words say of one point and of two.
ghost use Rattle.std.specs.Prelude.{◌≡◌, OnOk};
ghost use Rattle.words.specs.Sets.{Numbers, word_bits, bit};
ghost use Rattle.words.specs.Calls.{asked_answer, Asked, BoundedIs, BothIs};

use crate::Extent;
use rules::{Answer, Refusal};

// What comes before the work of a call about two points: n and the points, then room for n words.
#[tactic(auto, unfolding(crate::specs::Calls::asked_answer, rules::specs::Plan::version1))]
pub fn asked(n: u32, x: u32, y: u32, words: usize) -> Answer
    ensures answer { result ≡ asked_answer n x y words }
    ensures passed { OnOk result (Asked n x y words) }
{
    if !(1..=64).contains(&n) || x >= n || y >= n {
        return Err(Refusal::BadPoints);
    }
    if words < n as usize {
        return Err(Refusal::ShortRoom);
    }
    Ok(())
}

// The numbers of a word.
#[tactic(auto, using(crate::proofs::BitCounts::counts))]
fn extent(w: u64) -> Extent
    ensures { Numbers word_bits (bit w) result.number result.lowest result.highest }
{
    Extent {
        number: w.count_ones(),
        lowest: w.trailing_zeros(),
        highest: if w == 0 { 64 } else { 63 - w.leading_zeros() },
    }
}

// How many points x bounds, the lowest and the highest.
pub fn bounded(n: u32, words: &[u64], x: u32) -> Result<Extent, Refusal>
    ensures { BoundedIs n words.now x result }
{
    asked(n, x, x, words.len())?;
    Ok(extent(words[x as usize]))
}

// The points that x and y both bound.
pub fn both(n: u32, words: &[u64], x: u32, y: u32) -> Result<u64, Refusal>
    ensures { BothIs n words.now x y result }
{
    asked(n, x, y, words.len())?;
    Ok(words[x as usize] & words[y as usize])
}
