// What each try of a reason list offers, read from the work room and the lent file. Nothing is written here: the work room holds the best lines so
// far (specs/Work.antt), a draft is a line that may be written (specs/Drafts.antt).
#![tactic(auto)]

mod bests;
mod given;
mod joins;
mod kinds;
mod rules_of;

pub use bests::{Bests, kept, spot, weights_of};
pub use given::{limit_draft, longest_draft, lower_case_draft, shortest_draft, start_draft};
pub use joins::{join_draft, next_join};
pub use kinds::Kind;
pub use rules_of::{lower_draft, upper_draft};

// A line that may be written.
#[derive(Clone, Copy)]
pub struct Draft {
    pub kind: Kind,
    pub from: u32,
    pub to: u32,
    pub weight: i64,
    pub first: u64,
    pub second: u64,
}
