// What admission looks for in the flows of a table, in order.
ghost use Rattle.std.specs.Prelude.{◌≡◌, MatchOption};
ghost use Rattle.table.specs.Content.{content};
ghost use Rattle.bounds.specs.Sums.{count};
ghost use Rattle.bounds.specs.Bounds.{crowded};
ghost use Rattle.plan.specs.Order.{NoneBelow, FirstNumbered};
ghost use Rattle.plan.specs.Faults.{flow_fault, Faultless, FirstFault};

use crate::refusal::FlowFault;
use bounds::is_crowded;
use table::{Dimensions, Flow, Table};

// The first thing that is wrong with a flow.
fn fault_of(dimensions: Dimensions, flow: &Flow) -> Option<FlowFault>
    ensures { result ≡ flow_fault dimensions.side dimensions.frame.0 flow.now }
{
    let Dimensions { side, frame, .. } = dimensions;
    let outside = |(column, row): (u8, u8)| column >= side || row >= side;
    if outside(flow.source) || outside(flow.destination) {
        return Some(FlowFault::Outside);
    }
    if flow.source == flow.destination {
        return Some(FlowFault::Still);
    }
    if !(1..=64).contains(&flow.burst.0) {
        return Some(FlowFault::Burst);
    }
    if !(1..=frame.0).contains(&flow.rate.0) {
        return Some(FlowFault::Rate);
    }
    None
}

// The lowest flow with a fault, by its number.
pub(crate) fn first_fault(table: &Table) -> Option<(usize, FlowFault)>
    ensures { MatchOption result (Faultless (content table.now) (count (content table.now))) (λ e. FirstFault (content table.now) e.0 e.1) }
{
    let dimensions = table.dimensions();
    table.flows().iter().enumerate().find_map(|(k, flow)| {
        let fault = fault_of(dimensions, flow)?;
        Some((k + 1, fault))
    })
}

// The lowest flow that its rivals leave too little, by its number.
pub(crate) fn first_crowded(table: &Table) -> Option<usize>
    ensures { MatchOption result (NoneBelow (count (content table.now)) (crowded (content table.now))) (FirstNumbered (count (content table.now)) (crowded (content table.now))) }
{
    table
        .flows()
        .iter()
        .enumerate()
        .find_map(|(k, _)| is_crowded(table, k).then_some(k + 1))
}
