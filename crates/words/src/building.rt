// The words built from a strict table.
ghost use Rattle.std.specs.Prelude.{◌≡◌, ◌*◌, ◌≤◌, ◌<◌, length, OnOk};
ghost use Rattle.words.specs.Sets.{word_of};
ghost use Rattle.words.specs.Calls.{room_answer, Room, bounds, Reached};

use cell::Word;
use joining::get;
use rules::{Answer, Refusal};

// What comes before the work: n, then room for a table and for n words.
#[tactic(auto, unfolding(crate::specs::Calls::room_answer, rules::specs::Plan::version1))]
fn room(n: u32, cells: usize, words: usize) -> Answer
    ensures answer { result ≡ room_answer n cells words }
    ensures passed { OnOk result (Room n cells words) }
{
    if !(1..=64).contains(&n) {
        return Err(Refusal::BadPoints);
    }
    let points = n as usize;
    if cells < points * points || words < points {
        return Err(Refusal::ShortRoom);
    }
    Ok(())
}

// The word of point x: a bit for each point that it bounds.
#[tactic(auto, using(crate::proofs::BitsOfWords::one_more_bit), unfolding(crate::specs::Sets::word_of, rules::specs::Cells::table_of))]
fn word(n: usize, strict: &[i32], x: usize) -> u64
    requires { (n ≤ 64) × (n * n ≤ length strict.now) × (x < n) }
    ensures { result ≡ word_of n (bounds n strict.now x) }
{
    let mut w = 0;
    for y in 0..n {
        if !get(strict, n, x, y).is_mark() {
            w |= 1 << y;
        }
    }
    w
}

// The words of a strict table.
pub fn reach(n: u32, strict: &[i32], words: &mut [u64]) -> Answer
    ensures { Reached n strict.now words.old result words.new }
{
    room(n, strict.len(), words.len())?;
    let n = n as usize;
    for (x, w) in words[..n].iter_mut().enumerate() {
        *w = word(n, strict, x);
    }
    Ok(())
}
