// Waits at the source, and the whole latency.
ghost use Rattle.std.specs.Prelude.{◌≡◌, ◌*◌, ◌^◌, ◌<◌, ◌≤◌};
ghost use Rattle.table.specs.Content.{content};
ghost use Rattle.bounds.specs.Sums.{units_of};
ghost use Rattle.bounds.specs.Bounds as bound;

use crate::Bounds;
use crate::rounding::divide;
use crate::sums::{frame, rates, slacks};
use crate::turns::{flow_at, north_rates, turn_rates};
use quantity::Steps;
use table::{Flow, Table};
use torus::{Torus, turns, turns_at};

// The rates of the users of a flow's outlet at its source.
fn outlet_rates(table: &Table, flow: &Flow) -> u64
    ensures value { result ≡ bound.outlet_rates (content table.now) flow.now }
    ensures small { result ≤ 128 * 65535 }
{
    let (torus, source) = (Torus::from(table.dimensions()), flow.source);
    if turns(flow) {
        return rates(table, |_, other| torus.through(other, source));
    }
    north_rates(table, source) + turn_rates(table, source)
}

// The rates of the rivals of flow `own`.
fn rival_rates(table: &Table, own: usize) -> u64
    ensures value { result ≡ bound.rival_rates (content table.now) own }
    ensures small { result ≤ 192 * 65535 }
{
    let flow = flow_at(table, own);
    let clients = rates(table, |k, other| k != own && other.source == flow.source);
    clients + outlet_rates(table, &flow)
}

// Whether flow `k`, counted from 0, and its rivals bring more than a step takes.
pub fn is_crowded(table: &Table, k: usize) -> bool
    ensures { result ≡ bound.crowded (content table.now) k }
{
    let rate = u64::from(flow_at(table, k).rate.0);
    frame(table) < rival_rates(table, k) + rate
}

impl Bounds<'_> {
    // What the users of a flow's outlet at its source can send at once.
    fn outlet_units(&self, flow: &Flow) -> u64
        ensures value { result ≡ bound.outlet_units (content self.now.table.now) (units_of self.now.bursts.now) flow.now }
        ensures small { result ≤ 128 * 4294967295 }
    {
        let (torus, source) = (Torus::from(self.table.dimensions()), flow.source);
        if turns(flow) {
            return slacks(self.table, |_, other| torus.through(other, source));
        }
        self.north_bursts(source) + self.bursts_of(|_, other| turns_at(other, source))
    }

    // What the rivals of flow `own` can send at once.
    fn rival_units(&self, own: usize) -> u64
        ensures value { result ≡ bound.rival_units (content self.now.table.now) (units_of self.now.bursts.now) own }
        ensures small { result ≤ 192 * 4294967295 }
    {
        let flow = flow_at(self.table, own);
        let clients = slacks(
            self.table,
            |k, other| k != own && other.source == flow.source,
        );
        clients + self.outlet_units(&flow)
    }

    // The steps that a covered packet of flow `k` can wait in its mouth.
    pub fn wait(&self, k: usize) -> Steps
        ensures value { result.0 ≡ bound.wait (content self.now.table.now) (units_of self.now.bursts.now) k }
        ensures small { result.0 < 10 ^ 12 }
    {
        let left = frame(self.table).saturating_sub(rival_rates(self.table, k));
        Steps(divide(self.rival_units(k), left))
    }

    // The steps in which a covered packet of flow `k` is delivered.
    pub fn latency(&self, k: usize) -> Steps
        ensures value { result.0 ≡ bound.latency (content self.now.table.now) (units_of self.now.bursts.now) k }
        ensures small { result.0 < 10 ^ 13 }
    {
        let waiting = self.wait(k).0 + self.turn_delay(k).0;
        let torus = Torus::from(self.table.dimensions());
        Steps(waiting + torus.hops(&flow_at(self.table, k)).0)
    }
}
