// The parts of a table.
use quantity::{Depth, Frame, Packets, Rate};

// A torus of side times side routers, the depth of its turn queues and the frame of its packets.
#[derive(Clone, Copy, PartialEq, Eq, Debug)]
pub struct Dimensions {
    pub side: u8,
    pub depth: Depth,
    pub frame: Frame,
}

// A flow runs from a router to a router, each a column and a row, under a token bucket.
#[derive(Clone, Copy, Debug, PartialEq, Eq)]
pub struct Flow {
    pub source: (u8, u8),
    pub destination: (u8, u8),
    pub burst: Packets,
    pub rate: Rate,
}

// What stands for a flow where there is none.
pub const NO_FLOW: Flow = Flow {
    source: (0, 0),
    destination: (0, 0),
    burst: Packets(0),
    rate: Rate(0),
};
