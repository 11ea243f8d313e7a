// The words after one more limit was taken.
ghost use Rattle.std.specs.Prelude.{◌≡◌, ◌<◌};
ghost use Rattle.words.specs.Sets.{word_bits};
ghost use Rattle.words.specs.Calls.{taking, ReachAdded};

use crate::asking::asked;
use rules::Answer;

// A word that takes the bits of another where it has bit x.
#[tactic(auto, using(crate::proofs::BitsOfWords::or_word), unfolding(crate::specs::Sets::bit))]
fn take(x: u32, to: u64, w: u64) -> u64
    requires { x < word_bits }
    ensures { result ≡ taking x to w }
{
    if (w >> x) % 2 == 1 { w | to } else { w }
}

// The words after a limit from x to y was taken: every word that has bit x takes the bits of word y. Word y itself stays as it is, so it may be read once,
// before the others change.
pub fn reach_add(n: u32, x: u32, y: u32, words: &mut [u64]) -> Answer
    ensures { ReachAdded n x y words.old result words.new }
{
    asked(n, x, y, words.len())?;
    let to = words[y as usize];
    for w in &mut words[..n as usize] {
        *w = take(x, to, *w);
    }
    Ok(())
}
