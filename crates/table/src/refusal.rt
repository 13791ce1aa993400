// Why a table file, a flow or a place is refused.
ghost use Rattle.std.specs.Prelude.{◌≡◌};
ghost use Rattle.table.specs.declared.fault.Layer.TheVariants.{File};
ghost use Rattle.table.specs.Refusals.{fault_of};

use crate::fault::{Fault, Layer, Place};

// Reading refuses a file at a byte; a table is full, and a place too short for a file.
#[derive(Clone, Copy, PartialEq, Eq, Debug)]
pub(crate) enum Refusal {
    Cut(usize),
    Undue(usize),
    Missized(usize),
    Excess(usize),
    Miscount(usize),
    Trailing(usize),
    Full,
    Short,
}

impl From<Refusal> for Fault {
    ghost from_gives = { λ x y. y ≡ fault_of x };

    fn from(refusal: Refusal) -> Fault {
        let (number, place) = match refusal {
            Refusal::Cut(at) => (1, Place::Byte(at)),
            Refusal::Undue(at) => (2, Place::Byte(at)),
            Refusal::Missized(at) => (3, Place::Byte(at)),
            Refusal::Excess(at) => (4, Place::Byte(at)),
            Refusal::Full => (4, Place::Flow(65)),
            Refusal::Miscount(at) => (5, Place::Byte(at)),
            Refusal::Trailing(at) => (6, Place::Byte(at)),
            Refusal::Short => (7, Place::Nowhere),
        };
        Fault {
            number,
            layer: Layer::File,
            place,
        }
    }
}
