// The two-counter kind keeps whole packets as tokens, and a phase of less than a packet.
ghost use Rattle.std.specs.Prelude.{◌≡◌, ◌<◌, ◌≤◌};

use quantity::{Packets, Units};
use regulator::Bucket;

mod clauses;

#[derive(Clone, Copy)]
pub struct TwoCounter {
    bucket: Bucket,
    tokens: Packets,
    phase: Units,
    ghost within: { tokens.0 ≤ bucket.burst.0 },
    ghost part: { phase.0 < bucket.frame.0 },
    ghost brim: { (tokens.0 ≡ bucket.burst.0 → phase.0 ≡ 0) },
}
