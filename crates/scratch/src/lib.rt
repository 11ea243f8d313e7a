// Add's work in a lent scratch of 64-bit cells: the strict table of Add's plan in its first n x n cells, the open one in the next n x n. Both parts are lent
// as tables.
#![tactic(auto)]

mod copies;
mod ending;
mod opening;
mod settling;
mod starting;

pub use copies::{all_in_reach, clear};
pub use ending::finish;
pub use settling::settle;
pub use starting::begin;
