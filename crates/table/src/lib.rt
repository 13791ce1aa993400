// A building's flow table: its parts, its faults, building it, reading and writing its file.
#![tactic(auto)]

mod fault;
mod flow;
mod model;
mod reading;
mod record;
mod refusal;
mod writing;

pub use fault::{Fault, Layer, Place};
pub use flow::{Dimensions, Flow, NO_FLOW};
pub use model::Table;
