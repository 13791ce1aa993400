// From a flow of a plan to its bucket.
ghost use Rattle.std.specs.Prelude.{◌≡◌, ◌*◌};
ghost use Rattle.table.specs.Content.{content};
ghost use Rattle.regulator.specs.Making.{Found, Numbered};

use super::Bucket;
use crate::missing::NoFlow;
use plan::Plan;
use quantity::Units;
use table::Flow;

// The flow of this number, which counts from 1.
fn numbered(flows: &[Flow], number: usize) -> Option<Flow>
    ensures { Numbered flows.now number result }
{
    let k = number.checked_sub(1)?;
    flows.get(k).copied()
}

impl Bucket {
    // The bucket of a flow by its number, which counts from 1.
    pub fn of_flow(plan: &Plan, number: usize) -> Result<Bucket, NoFlow>
        ensures { Found (content plan.now.table) number result }
    {
        let flow = numbered(plan.table().flows(), number).ok_or(NoFlow(number))?;
        Ok(Bucket {
            burst: flow.burst,
            rate: flow.rate,
            frame: plan.table().dimensions().frame,
        })
    }

    // What a full bucket holds.
    pub fn full(self) -> Units
        ensures { result.0 ≡ self.burst.0 * self.frame.0 }
    {
        self.burst.in_units(self.frame)
    }
}
