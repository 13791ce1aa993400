// Admission: from a table to a plan.
ghost use Rattle.std.specs.Prelude.{◌≡◌};
ghost use Rattle.std.specs.Result.{MatchResult};
ghost use Rattle.table.specs.Content.{content};
ghost use Rattle.bounds.specs.Sums.{units_of};
ghost use Rattle.plan.specs.Plans.{Sound, shallow};
ghost use Rattle.plan.specs.Refusals.{Against};

use crate::checks::{first_crowded, first_fault};
use crate::refusal::Refusal;
use crate::routers::first_router;
use bounds::{Bounds, is_saturated};
use quantity::Packets;
use table::Table;

// What can be seen before bursts are looked for: the table's own numbers, its flows, its turns and its sources.
pub(crate) fn check(table: &Table) -> Result<(), Refusal>
    ensures { MatchResult result (λ _. Sound (content table.now)) (Against (content table.now)) }
{
    let dimensions = table.dimensions();
    if !(2..=8).contains(&dimensions.side) {
        return Err(Refusal::Side);
    }
    if !(2..=1024).contains(&dimensions.frame.0) {
        return Err(Refusal::Frame);
    }
    if !(1..=128).contains(&dimensions.depth.0) {
        return Err(Refusal::Depth);
    }
    if let Some((flow, fault)) = first_fault(table) {
        return Err(Refusal::Flow(flow, fault));
    }
    if let Some(router) = first_router(table, |router| is_saturated(table, router)) {
        return Err(Refusal::Saturated(router));
    }
    if let Some(flow) = first_crowded(table) {
        return Err(Refusal::Crowded(flow));
    }
    Ok(())
}

// Whether a router's queue needs more than the table's depth.
pub(crate) fn is_shallow(bounds: &Bounds, router: (u8, u8)) -> bool
    ensures { result ≡ shallow (content bounds.now.table.now) (units_of bounds.now.bursts.now) router }
{
    let depth = Packets::from(bounds.table.dimensions().depth);
    bounds
        .backlog(router)
        .is_none_or(|packets| depth.0 <= packets.0)
}
