// Making plans.
ghost use Rattle.std.specs.Prelude.{◌≡◌, Ok};
ghost use Rattle.table.specs.Content.{content};
ghost use Rattle.bounds.specs.Sums.{units_of};
ghost use Rattle.bounds.specs.Bounds.{side};
ghost use Rattle.bounds.specs.Bursts.{Bounded};
ghost use Rattle.plan.specs.Order.{Nowhere};
ghost use Rattle.plan.specs.Plans.{empty_table, Sound, shallow};
ghost use Rattle.plan.specs.Refusals.{Admits, Admitted, Alone};
ghost use Rattle.plan.specs.Loading.{Loaded};

use super::Plan;
use crate::admission::{check, is_shallow};
use crate::backlogs::backlogs;
use crate::fault::PlanFault;
use crate::refusal::Refusal;
use crate::routers::first_router;
use bounds::{Bounds, least_bursts};
use quantity::{Depth, Frame, Units};
use table::{Dimensions, Fault, Table};

// The plan of a table that was checked, with its least bursts.
fn complete(table: &Table, bursts: [Units; 64]) -> Plan
    requires sound { Sound (content table.now) }
    requires least { Bounded (content table.now) (Ok bursts) }
    requires deep { Nowhere (side (content table.now)) (shallow (content table.now) (units_of bursts)) }
    ensures { result.table ≡ table.now }
{
    Plan {
        table: *table,
        bursts,
        backlogs: backlogs(&Bounds {
            table,
            bursts: &bursts,
        }),
    }
}

// The plan of a table, or the first reason against it.
fn plan_of(table: &Table) -> Result<Plan, Refusal>
    ensures { Admits (content table.now) result }
{
    check(table)?;
    let bursts = least_bursts(table).map_err(|_| Refusal::Unbounded)?;
    let bounds = Bounds {
        table,
        bursts: &bursts,
    };
    if let Some(router) = first_router(table, |router| is_shallow(&bounds, router)) {
        return Err(Refusal::Shallow(router));
    }
    Ok(complete(table, bursts))
}

// The table of a place for a plan as it starts.
fn no_flows() -> Table
    ensures { content result ≡ empty_table }
{
    Table::new(Dimensions {
        side: 2,
        depth: Depth(1),
        frame: Frame(2),
    })
}

impl Plan {
    // What a place for a plan starts as: no flows on the smallest torus.
    pub fn empty() -> Plan
        ensures { content result.table ≡ empty_table }
    {
        complete(&no_flows(), [Units(0); 64])
    }

    // Puts the table's plan in this place; a refusal leaves it as it was.
    pub fn admit(&mut self, table: &Table) -> Result<(), Fault>
        ensures answer { Admitted (content table.now) self.old self.new result }
        ensures alone { Alone (content table.now) self.new result }
    {
        *self = plan_of(table)?;
        Ok(())
    }

    // The same for the table whose file the bytes are.
    pub fn load(&mut self, bytes: &[u8]) -> Result<(), PlanFault>
        ensures { Loaded bytes.now self.old self.new result }
    {
        let table = Table::read(bytes)?;
        *self = plan_of(&table)?;
        Ok(())
    }
}
