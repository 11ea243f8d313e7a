// What words say of points, into a lent slice: as C asks for it.
ghost use Rattle.words.specs.Handed.{BoundedInto, BothInto};

use crate::asking::{both, bounded};
use rules::{Answer, Refusal};

// The number, the lowest and the highest, into the first three cells.
pub fn bounded_into(n: u32, words: &[u64], x: u32, out: &mut [u32]) -> Answer
    ensures { BoundedInto n words.now x out.old result out.new }
{
    let extent = bounded(n, words, x)?;
    if out.len() < 3 {
        return Err(Refusal::ShortRoom);
    }
    out[0] = extent.number;
    out[1] = extent.lowest;
    out[2] = extent.highest;
    Ok(())
}

// The word of the points that both bound, into the first cell.
pub fn both_into(n: u32, words: &[u64], x: u32, y: u32, out: &mut [u64]) -> Answer
    ensures { BothInto n words.now x y out.old result out.new }
{
    let word = both(n, words, x, y)?;
    if out.is_empty() {
        return Err(Refusal::ShortRoom);
    }
    out[0] = word;
    Ok(())
}
