// The calls on reach words, exported for C (include/post.h). Each is the function of the same name in `post`, with the same clauses.
ghost use Rattle.words.specs.Calls.{Reached, ReachAdded};
ghost use Rattle.words.specs.Handed.{BoundedInto, BothInto};
ghost use Rattle.post.specs.Faces.{Packed};

// Reach: the words of a strict table.
#[unsafe(no_mangle)]
pub extern "C" fn post_reach(n: u32, strict: &[i32], words: &mut [u64]) -> u64
    ensures { Packed (λ a. Reached n strict.now words.old a words.new) result }
{
    post::post_reach(n, strict, words)
}

// Bounded: how many points x bounds, the lowest and the highest.
#[unsafe(no_mangle)]
pub extern "C" fn post_bounded(n: u32, words: &[u64], x: u32, out: &mut [u32]) -> u64
    ensures { Packed (λ a. BoundedInto n words.now x out.old a out.new) result }
{
    post::post_bounded(n, words, x, out)
}

// Both: the points that x and y both bound.
#[unsafe(no_mangle)]
pub extern "C" fn post_both(n: u32, words: &[u64], x: u32, y: u32, out: &mut [u64]) -> u64
    ensures { Packed (λ a. BothInto n words.now x y out.old a out.new) result }
{
    post::post_both(n, words, x, y, out)
}

// Update: the words after a limit from x to y was taken.
#[unsafe(no_mangle)]
pub extern "C" fn post_reach_add(n: u32, x: u32, y: u32, words: &mut [u64]) -> u64
    ensures { Packed (λ a. ReachAdded n x y words.old a words.new) result }
{
    post::post_reach_add(n, x, y, words)
}
