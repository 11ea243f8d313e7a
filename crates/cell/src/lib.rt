// One cell of a table by value, as a number of 32 or of 64 bits: the no-path mark, which is the largest number of its type, or a number. What a method
// computes is said on the cells of the paper (specs/Cells.antt of `rules`) and by specs/Steps.antt. A cell that a sweep holds is the mark, or a number
// from one under the reach to the reach.
#![tactic(auto)]

mod widths;
mod word;

pub use widths::{in_narrow_reach, narrowed, of_line, widened};
pub use word::Word;
