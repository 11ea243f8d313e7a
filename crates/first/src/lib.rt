// The first strict table: the mark everywhere, 0 on the diagonal, and every given edge of a file's plan.
#![tactic(auto)]

mod starting;

pub use starting::first_strict;
