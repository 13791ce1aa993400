// The system of lines whose least solution is the least bursts.
ghost use Rattle.std.specs.Prelude.{◌≡◌, ◌^◌, ◌<◌, ◌≤◌, length};

use quantity::{Rate, Units};

mod build;
mod system;

pub use build::lines_of;

// What stays of a flow's line while bursts rise, so that a pass over all lines only adds bursts.
#[derive(Clone, Copy)]
pub struct Line {
    slack: Units,
    turn: Option<Turn>,
}

// What a flow has to do with the router where it turns, and which flows come there from the north,
// a flag for each in fixed memory.
#[derive(Clone, Copy)]
struct Turn {
    rate: Rate,
    others: u64,
    room: u64,
    north: [bool; 64],
    ghost modest: { others < 2 ^ 39 },
    ghost narrow: { room < 2 ^ 16 },
    ghost long: { length north ≡ 64 },
}

// The line of each flow of a table.
// (an array and a count, since lines are `Copy` and take no heap, and `ArrayVec` is not `Copy`)
#[derive(Clone, Copy)]
pub struct Lines {
    count: usize,
    lines: [Line; 64],
    ghost few: { count ≤ 64 },
    ghost whole: { length lines ≡ 64 },
}
