// Why a table is not admitted.
ghost use Rattle.std.specs.Prelude.{◌≡◌};
ghost use Rattle.table.specs.declared.fault.Layer.TheVariants.{Plan};
ghost use Rattle.plan.specs.Numbers.{fault_of, flow_number};

use table::{Fault, Layer, Place};

// What can be wrong with one flow.
#[derive(Clone, Copy, PartialEq, Eq, Debug)]
pub enum FlowFault {
    Outside,
    Still,
    Burst,
    Rate,
}

// The reasons in the order in which they are looked for; flows count from 1.
#[derive(Clone, Copy, PartialEq, Eq, Debug)]
pub enum Refusal {
    Side,
    Frame,
    Depth,
    Flow(usize, FlowFault),
    Saturated((u8, u8)),
    Crowded(usize),
    Unbounded,
    Shallow((u8, u8)),
}

fn fault(number: u8, place: Place) -> Fault
    ensures { result ≡ record { number = number; layer = Plan; place = place } }
{
    Fault {
        number,
        layer: Layer::Plan,
        place,
    }
}

impl From<FlowFault> for u8 {
    ghost from_gives = { λ x y. y ≡ flow_number x };

    fn from(fault: FlowFault) -> u8 {
        match fault {
            FlowFault::Outside => 13,
            FlowFault::Still => 14,
            FlowFault::Burst => 15,
            FlowFault::Rate => 16,
        }
    }
}

impl From<Refusal> for Fault {
    ghost from_gives = { λ x y. y ≡ fault_of x };

    fn from(refusal: Refusal) -> Fault {
        match refusal {
            Refusal::Side => fault(10, Place::Nowhere),
            Refusal::Frame => fault(11, Place::Nowhere),
            Refusal::Depth => fault(12, Place::Nowhere),
            Refusal::Flow(flow, cause) => fault(u8::from(cause), Place::Flow(flow)),
            Refusal::Saturated(router) => fault(17, Place::Router(router)),
            Refusal::Crowded(flow) => fault(18, Place::Flow(flow)),
            Refusal::Unbounded => fault(19, Place::Nowhere),
            Refusal::Shallow(router) => fault(20, Place::Router(router)),
        }
    }
}
