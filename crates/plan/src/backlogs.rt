// The backlogs of a table's routers, row by row.
ghost use Rattle.std.specs.Prelude.{◌≡◌, ℕ, ◌<◌, length};
ghost use Rattle.table.specs.Content.{content};
ghost use Rattle.torus.specs.Paths.{router_at};
ghost use Rattle.bounds.specs.Sums.{units_of};
ghost use Rattle.bounds.specs.Bounds.{side};
ghost use Rattle.plan.specs.Plans.{packets_of};
ghost use Rattle.plan.specs.Stored.{stored};

use bounds::Bounds;
use quantity::Packets;
use std::array;
use torus::Torus;

// The backlog of the router with this number, and nothing where there is no such router.
fn backlog_at(bounds: &Bounds, k: usize) -> Packets
    ensures { result.0 ≡ stored (content bounds.now.table.now) (units_of bounds.now.bursts.now) (router_at (side (content bounds.now.table.now)) k) }
{
    let Some(router) = Torus::from(bounds.table.dimensions()).router_at(k) else {
        return Packets(0);
    };
    bounds.backlog(router).unwrap_or(Packets(0))
}

pub(crate) fn backlogs(bounds: &Bounds) -> [Packets; 64]
    ensures long { length result ≡ 64 }
    ensures each { (k : ℕ) → k < 64 → packets_of result k ≡ stored (content bounds.now.table.now) (units_of bounds.now.bursts.now) (router_at (side (content bounds.now.table.now)) k) }
{
    array::from_fn(|k| backlog_at(bounds, k))
}
