// The numbers of a table, a plan and a card, and the conversions between them.
// Each number has a struct of its own, so that none is taken for another: six structs, and no twins.
#![tactic(auto)]

ghost use Rattle.std.specs.Prelude.{◌≡◌, ◌*◌};

// A count of network cycles.
#[derive(Clone, Copy, PartialEq, Eq, PartialOrd, Ord, Hash, Debug)]
pub struct Steps(pub u64);

// A count of packets.
#[derive(Clone, Copy, PartialEq, Eq, PartialOrd, Ord, Hash, Debug)]
pub struct Packets(pub u16);

// A count of units: a frame of them makes one packet.
#[derive(Clone, Copy, PartialEq, Eq, PartialOrd, Ord, Hash, Debug)]
pub struct Units(pub u32);

// How many packets a turn queue has room for.
#[derive(Clone, Copy, PartialEq, Eq, PartialOrd, Ord, Hash, Debug)]
pub struct Depth(pub u8);

// How many units make one packet.
#[derive(Clone, Copy, PartialEq, Eq, PartialOrd, Ord, Hash, Debug)]
pub struct Frame(pub u16);

// How many units a step brings.
#[derive(Clone, Copy, PartialEq, Eq, PartialOrd, Ord, Hash, Debug)]
pub struct Rate(pub u16);

impl Packets {
    // The units that make so many packets at a frame.
    pub fn in_units(self, frame: Frame) -> Units
        ensures { result.0 ≡ self.0 * frame.0 }
    {
        Units(u32::from(self.0) * u32::from(frame.0))
    }
}

// The packets of a full queue.
impl From<Depth> for Packets {
    ghost from_gives = { λ depth packets. packets.0 ≡ depth.0 };

    fn from(depth: Depth) -> Packets {
        Packets(u16::from(depth.0))
    }
}

// The units of one packet.
impl From<Frame> for Units {
    ghost from_gives = { λ frame units. units.0 ≡ frame.0 };

    fn from(frame: Frame) -> Units {
        Packets(1).in_units(frame)
    }
}

// The units of one step.
impl From<Rate> for Units {
    ghost from_gives = { λ rate units. units.0 ≡ rate.0 };

    fn from(rate: Rate) -> Units {
        Units(u32::from(rate.0))
    }
}
