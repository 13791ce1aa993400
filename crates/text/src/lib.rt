// Text that is put together in place.
#![tactic(auto)]

mod buffer;

pub use buffer::Text;
