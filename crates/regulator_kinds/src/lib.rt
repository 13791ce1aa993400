// The kinds of regulator. Each keeps its allowance in its own way, which nothing else knows.
#![tactic(auto)]

mod one_level;
mod tally;
mod two_counter;

pub use one_level::OneLevel;
pub use tally::Tally;
pub use two_counter::TwoCounter;
