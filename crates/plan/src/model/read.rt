// What a plan tells.
ghost use Rattle.std.specs.Prelude.{◌≡◌};
ghost use Rattle.table.specs.Content.{content};
ghost use Rattle.bounds.specs.Sums.{units_of};
ghost use Rattle.plan.specs.Told.{flow_told, FlowSmall, router_told, RouterSmall};

use super::Plan;
use crate::told::{FlowBounds, RouterBounds};
use bounds::{Bounds, is_turn};
use quantity::Packets;
use table::Table;
use torus::Torus;

impl Plan {
    // The bounds of a flow by its number, which counts from 1.
    pub fn flow(&self, number: usize) -> Option<FlowBounds>
        ensures value { result ≡ flow_told (content self.now.table) (units_of self.now.bursts) number }
        ensures small { FlowSmall result }
    {
        let k = number.checked_sub(1)?;
        let flow = self.table.flows().get(k)?;
        let bounds = Bounds {
            table: &self.table,
            bursts: &self.bursts,
        };
        Some(FlowBounds {
            burst: self.bursts[k],
            wait: bounds.wait(k),
            turn: bounds.turn_delay(k),
            hops: Torus::from(self.table.dimensions()).hops(flow),
            latency: bounds.latency(k),
        })
    }

    // The bounds of a router's queue.
    pub fn router(&self, router: (u8, u8)) -> Option<RouterBounds>
        ensures value { result ≡ router_told (content self.now.table) (units_of self.now.bursts) router }
        ensures small { RouterSmall result }
    {
        let k = Torus::from(self.table.dimensions()).index_of(router)?;
        let backlog = self.backlogs[k];
        Some(RouterBounds {
            turns: is_turn(&self.table, router),
            backlog,
            depth: Packets(backlog.0 + 1),
        })
    }

    // The table that was admitted.
    pub fn table(&self) -> &Table
        ensures { result.now ≡ self.now.table }
    {
        &self.table
    }
}
