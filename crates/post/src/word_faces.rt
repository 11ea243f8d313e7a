// The calls on reach words as C has them: an answer passes as one 64-bit number. The static library `post_c` exports each under its name here.
ghost use Rattle.words.specs.Calls.{Reached, ReachAdded};
ghost use Rattle.words.specs.Handed.{BoundedInto, BothInto};
ghost use Rattle.post.specs.Faces.{Packed};

use crate::faces::packed;
use words::{both_into, bounded_into, reach, reach_add};

// Reach: the words of a strict table.
pub fn post_reach(n: u32, strict: &[i32], words: &mut [u64]) -> u64
    ensures { Packed (λ a. Reached n strict.now words.old a words.new) result }
{
    packed(reach(n, strict, words))
}

// Bounded: how many points x bounds, the lowest and the highest.
pub fn post_bounded(n: u32, words: &[u64], x: u32, out: &mut [u32]) -> u64
    ensures { Packed (λ a. BoundedInto n words.now x out.old a out.new) result }
{
    packed(bounded_into(n, words, x, out))
}

// Both: the points that x and y both bound.
pub fn post_both(n: u32, words: &[u64], x: u32, y: u32, out: &mut [u64]) -> u64
    ensures { Packed (λ a. BothInto n words.now x y out.old a out.new) result }
{
    packed(both_into(n, words, x, y, out))
}

// Update: the words after a limit from x to y was taken.
pub fn post_reach_add(n: u32, x: u32, y: u32, words: &mut [u64]) -> u64
    ensures { Packed (λ a. ReachAdded n x y words.old a words.new) result }
{
    packed(reach_add(n, x, y, words))
}
