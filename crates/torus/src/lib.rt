// Paths of flows over a torus of routers: east along a row, one turn, south down a column.
// Every call answers for every side, also for one that no torus has.
#![tactic(auto)]

mod paths;
mod routers;

pub use paths::{turn, turns, turns_at};
pub use routers::Torus;

#[cfg(test)]
mod tests;
