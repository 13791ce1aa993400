// What stops a table file on its way to a plan: the fault of reading, whole, or that of admission.
ghost use Rattle.std.specs.Prelude.{◌≡◌};
ghost use Rattle.plan.specs.declared.fault.PlanFault.TheVariants.{File, Own};
ghost use Rattle.plan.specs.Numbers.{fault_of};
ghost use Rattle.plan.specs.Whole.{whole_of};

use crate::refusal::Refusal;
use table::Fault;

#[derive(Clone, Copy, PartialEq, Eq, Debug)]
pub enum PlanFault {
    File(Fault),
    Own(Fault),
}

// The fault of the layer that refused.
impl From<PlanFault> for Fault {
    ghost from_gives = { λ x y. y ≡ whole_of x };

    fn from(fault: PlanFault) -> Fault {
        match fault {
            PlanFault::File(fault) | PlanFault::Own(fault) => fault,
        }
    }
}

impl From<Fault> for PlanFault {
    ghost from_gives = { λ x y. y ≡ File x };

    fn from(read: Fault) -> PlanFault {
        PlanFault::File(read)
    }
}

impl From<Refusal> for PlanFault {
    ghost from_gives = { λ x y. y ≡ Own (fault_of x) };

    fn from(refusal: Refusal) -> PlanFault {
        PlanFault::Own(Fault::from(refusal))
    }
}
