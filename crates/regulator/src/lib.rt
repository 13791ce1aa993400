// Regulators: the clauses that every kind keeps, and banks of any kind.
#![tactic(auto)]

mod bank;
mod bucket;
mod missing;
mod regulator;

pub use bank::{covered_at, first_other, pass_all, take_at};
pub use bucket::Bucket;
pub use missing::NoFlow;
pub use regulator::Regulator;
