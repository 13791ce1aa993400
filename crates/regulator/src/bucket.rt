// The numbers of a flow's token bucket.
ghost use Rattle.std.specs.Prelude.{◌≡◌};
ghost use Rattle.regulator.specs.Ranges.{Between};

use quantity::{Frame, Packets, Rate};

mod build;

// They lie in the ranges of an admitted table, and no kind changes them.
#[derive(Clone, Copy)]
pub struct Bucket {
    pub burst: Packets,
    pub rate: Rate,
    pub frame: Frame,
    ghost bursts: { Between 1 64 burst.0 },
    ghost frames: { Between 2 1024 frame.0 },
    ghost rates: { Between 1 frame.0 rate.0 },
}
