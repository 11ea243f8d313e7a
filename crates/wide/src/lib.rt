// Add's sweep over 64-bit cells, one table at a time. What each function computes is said by the functions of lists of `lowering`, at Add's ranges.
#![tactic(auto)]

mod lowers;
mod opening;
mod sweep;
mod uppers;

pub use sweep::{join_cases, sweep_strict};
