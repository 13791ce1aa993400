// The one-level kind keeps its allowance as a number of units.
ghost use Rattle.std.specs.Prelude.{◌*◌, ◌≤◌};

use quantity::Units;
use regulator::Bucket;

mod clauses;

#[derive(Clone, Copy)]
pub struct OneLevel {
    bucket: Bucket,
    level: Units,
    ghost within: { level.0 ≤ bucket.burst.0 * bucket.frame.0 },
}
