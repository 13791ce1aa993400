// What a plan tells of a flow and of a router.
use quantity::{Packets, Steps, Units};

// The bounds of a flow; `turn` is its turn delay.
#[derive(Clone, Copy)]
pub struct FlowBounds {
    pub burst: Units,
    pub wait: Steps,
    pub turn: Steps,
    pub hops: Steps,
    pub latency: Steps,
}

// Whether some flow turns at a router, its backlog, and the depth that its queue needs; the numbers
// hold where none turns too, so `turns` stays beside them.
#[derive(Clone, Copy)]
pub struct RouterBounds {
    pub turns: bool,
    pub backlog: Packets,
    pub depth: Packets,
}
