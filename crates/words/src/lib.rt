// Reach words (document 02, item 6): beside a strict table one 64-bit word a point. Bit y of word x says whether the cell from x to y is a number.
// Each call is total: it takes any tables and any words, and its statement fixes its answer for all of them.
#![tactic(auto)]

mod asking;
mod building;
mod handing;
mod updating;

pub use asking::{both, bounded};
pub use building::reach;
pub use handing::{both_into, bounded_into};
pub use updating::reach_add;

// What `bounded` finds: how many points, the lowest and the highest; 64 stands for no point.
#[derive(Clone, Copy, Debug, PartialEq, Eq)]
pub struct Extent {
    pub number: u32,
    pub lowest: u32,
    pub highest: u32,
}
