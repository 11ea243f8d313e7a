// The two tables of least totals: the given edges joined, the open table a copy with the lower-case edges, then rounds of Lower and Upper to the end; and the times.
#![tactic(auto)]

mod opening;
mod settling;
mod timing;

pub use settling::settle;
pub use timing::times_all;
