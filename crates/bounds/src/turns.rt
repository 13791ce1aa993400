// What happens at the routers where flows turn.
ghost use Rattle.std.specs.Prelude.{◌≡◌, ◌+◌, ◌*◌, ◌^◌, ◌<◌, ◌≤◌};
ghost use Rattle.table.specs.Content.{content};
ghost use Rattle.bounds.specs.Sums.{flow as flow_of, over, units_of};
ghost use Rattle.bounds.specs.Bounds as bound;

use crate::Bounds;
use crate::rounding::{divide, divide_up};
use crate::sums::{frame, rates, slack, slacks};
use quantity::{Packets, Steps};
use table::{Flow, NO_FLOW, Table};
use torus::{Torus, turn, turns_at};

// Flow `k`, counted from 0; behind the last one, a flow of nothing.
pub(crate) fn flow_at(table: &Table, k: usize) -> Flow
    ensures { result ≡ flow_of (content table.now) k }
{
    table.flows().get(k).copied().unwrap_or(NO_FLOW)
}

// Whether some flow turns at the router.
pub fn is_turn(table: &Table, router: (u8, u8)) -> bool
    ensures { result ≡ bound.is_turn (content table.now) router }
{
    table.flows().iter().any(|flow| turns_at(flow, router))
}

pub(crate) fn turn_rates(table: &Table, router: (u8, u8)) -> u64
    ensures value { result ≡ bound.turn_rates (content table.now) router }
    ensures small { result ≤ 64 * 65535 }
{
    rates(table, |_, flow| turns_at(flow, router))
}

pub(crate) fn north_rates(table: &Table, router: (u8, u8)) -> u64
    ensures value { result ≡ bound.north_rates (content table.now) router }
    ensures small { result ≤ 64 * 65535 }
{
    let torus = Torus::from(table.dimensions());
    rates(table, |_, flow| torus.north(flow, router))
}

// Whether flows turn at the router and, with its north flows, fill every step.
pub fn is_saturated(table: &Table, router: (u8, u8)) -> bool
    ensures { result ≡ bound.saturated (content table.now) router }
{
    let brought = turn_rates(table, router) + north_rates(table, router);
    is_turn(table, router) && frame(table) <= brought
}

// What north flows leave of a step.
pub(crate) fn room(table: &Table, router: (u8, u8)) -> u64
    ensures value { result ≡ bound.room (content table.now) router }
    ensures small { result < 2 ^ 16 }
{
    frame(table).saturating_sub(north_rates(table, router))
}

fn turn_slacks(table: &Table, router: (u8, u8)) -> u64
    ensures value { result ≡ bound.turn_slacks (content table.now) router }
    ensures small { result ≤ 64 * 4294967295 }
{
    slacks(table, |_, flow| turns_at(flow, router))
}

// The slacks of other flows than flow `own` that turn at the router.
pub(crate) fn other_slacks(table: &Table, own: usize, router: (u8, u8)) -> u64
    ensures value { result ≡ over (content table.now) (bound.is_beside (content table.now) own router) (bound.slack (content table.now)) }
    ensures small { result ≤ 64 * 4294967295 }
{
    slacks(table, |k, flow| k != own && turns_at(flow, router))
}

impl Bounds<'_> {
    pub(crate) fn north_bursts(&self, router: (u8, u8)) -> u64
        ensures value { result ≡ bound.north_bursts (content self.now.table.now) (units_of self.now.bursts.now) router }
        ensures small { result ≤ 64 * 4294967295 }
    {
        let torus = Torus::from(self.table.dimensions());
        self.bursts_of(|_, flow| torus.north(flow, router))
    }

    // Packets that can wait at the router's turn.
    #[tactic(auto, unfolding(crate::specs::Bounds::backlog))]
    fn waiting(&self, router: (u8, u8)) -> u64
        ensures { result ≡ bound.backlog (content self.now.table.now) (units_of self.now.bursts.now) router }
    {
        let turning = turn_rates(self.table, router);
        let from_north = self.north_bursts(router);
        let late = divide(turning * from_north, room(self.table, router));
        let units = turn_slacks(self.table, router) + late;
        divide(units, frame(self.table))
    }

    // The backlog of a router, where a count of packets can hold it.
    pub fn backlog(&self, router: (u8, u8)) -> Option<Packets>
        ensures { result ≡ bound.packets (bound.backlog (content self.now.table.now) (units_of self.now.bursts.now) router) }
    {
        u16::try_from(self.waiting(router)).ok().map(Packets)
    }

    // What flow `k` finds at its turn: the bursts from the north, the slacks of the others.
    fn met(&self, k: usize, router: (u8, u8)) -> u64
        ensures value { result ≡ bound.north_bursts (content self.now.table.now) (units_of self.now.bursts.now) router + over (content self.now.table.now) (bound.is_beside (content self.now.table.now) k router) (bound.slack (content self.now.table.now)) }
        ensures small { result ≤ 2 ^ 39 }
    {
        self.north_bursts(router) + other_slacks(self.table, k, router)
    }

    // The steps that a packet of flow `k`, counted from 0, can wait at its turn.
    pub fn turn_delay(&self, k: usize) -> Steps
        ensures value { result.0 ≡ bound.turn_delay (content self.now.table.now) (units_of self.now.bursts.now) k }
        ensures small { result.0 < 10 ^ 12 }
    {
        let flow = flow_at(self.table, k);
        let Some(router) = turn(&flow) else {
            return Steps(0);
        };
        let left = room(self.table, router);
        let others = turn_rates(self.table, router).saturating_sub(u64::from(flow.rate.0));
        let own = u64::from(slack(self.table.dimensions().frame, &flow).0);
        let behind_own = divide_up(own, left.saturating_sub(others));
        Steps(behind_own + divide_up(self.met(k, router), left))
    }
}
