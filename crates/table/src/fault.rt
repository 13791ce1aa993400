// A refused call answers a fault: the refusal's number, the layer that refused and the place at fault.
#[derive(Clone, Copy, PartialEq, Eq, Debug)]
pub enum Layer {
    File,
    Plan,
    Card,
}

// Bytes count from 0, flows from 1; a router is its column and its row.
#[derive(Clone, Copy, PartialEq, Eq, Debug)]
pub enum Place {
    Byte(usize),
    Flow(usize),
    Router((u8, u8)),
    // (a kind of place, since an `Option` around the others would be matched in two steps)
    Nowhere,
}

#[derive(Clone, Copy, PartialEq, Eq, Debug)]
pub struct Fault {
    // (a number, since every refused call answers one, and each layer adds its own)
    pub number: u8,
    pub layer: Layer,
    pub place: Place,
}
