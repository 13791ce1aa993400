// The bounds of a table's flows: bursts, backlogs, waits, turn delays and latencies.
// Every call answers for every table, also for one that no plan can have.
#![tactic(auto)]

mod bursts;
mod lines;
mod rounding;
mod sums;
mod turns;
mod waits;

pub use bursts::least_bursts;
pub use lines::{Line, Lines, lines_of};
use quantity::Units;
use table::Table;
pub use turns::{is_saturated, is_turn};
pub use waits::is_crowded;

// A table and a choice of bursts, by flow; its methods answer what follows from both.
#[derive(Clone, Copy)]
pub struct Bounds<'a> {
    pub table: &'a Table,
    pub bursts: &'a [Units],
}
