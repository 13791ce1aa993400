// A regulator is asked for where there is no flow.
ghost use Rattle.std.specs.Prelude.{◌≡◌};
ghost use Rattle.regulator.specs.Making.{no_flow};

use table::{Fault, Layer, Place};

// The plan has no flow of this number.
#[derive(Clone, Copy, PartialEq, Eq, Debug)]
pub struct NoFlow(pub usize);

impl From<NoFlow> for Fault {
    ghost from_gives = { λ x y. y ≡ no_flow x.0 };

    fn from(missing: NoFlow) -> Fault {
        Fault {
            number: 34,
            layer: Layer::Card,
            place: Place::Flow(missing.0),
        }
    }
}
