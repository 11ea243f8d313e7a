// Lent tables of n x n cells, at either width: one cell read and lowered, joins along a middle point, looks at all cells, and the tables to start with. What
// each function computes is said by the functions of lists of `lowering`.
#![tactic(auto)]

mod cells;
mod table;
mod view;

pub use cells::{cell_at, get, lower_cell, mark_all, row_by};
pub use table::Table;
pub use view::View;
