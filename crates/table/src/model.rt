// A table of at most 64 flows.
ghost use Rattle.std.specs.Prelude.{◌≡◌, ℕ, ◌≤◌, length, slice_index_or};
ghost use Rattle.table.specs.Blank.{blank};

use crate::flow::{Dimensions, Flow};

mod build;
mod equality;

// Entries past the count are all the same, so that equal content is an equal value.
// (an array and a count, since a table is `Copy` and takes no heap, and `ArrayVec` is not `Copy`; no model,
// since a `Copy` struct that holds one with a model, as a plan would, is not passed by value twice in a function)
#[derive(Clone, Copy)]
pub struct Table {
    dimensions: Dimensions,
    count: usize,
    flows: [Flow; 64],
    ghost whole: { length flows ≡ 64 },
    ghost few: { count ≤ 64 },
    ghost rest: { (k : ℕ) → count ≤ k → slice_index_or flows k blank ≡ blank },
}
