// An edge spread through a joined table, and rounds of the edges that Lower and Upper yield. What each function computes is said by specs/Spread.antt of `lowering`.
#![tactic(auto)]

mod lowers;
mod spreading;
mod uppers;

pub use lowers::lower_round;
pub use spreading::new_edge;
pub use uppers::upper_round;
