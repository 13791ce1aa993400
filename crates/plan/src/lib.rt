// Plans: a table with its least bursts and its routers' backlogs, admitted or refused.
#![tactic(auto)]

mod admission;
mod backlogs;
mod checks;
mod fault;
mod model;
mod refusal;
mod routers;
mod told;

pub use fault::PlanFault;
pub use model::Plan;
pub use refusal::{FlowFault, Refusal};
pub use told::{FlowBounds, RouterBounds};
