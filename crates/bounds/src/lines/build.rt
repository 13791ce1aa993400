// Lines from a table.
ghost use Rattle.std.specs.Prelude.{◌≡◌, ℕ, ◌+◌, ◌*◌, ◌<◌, false, length, slice_index_or};
ghost use Rattle.table.specs.Blank.{blank};
ghost use Rattle.table.specs.Content.{content};
ghost use Rattle.torus.specs.Paths as path;
ghost use Rattle.bounds.specs.Sums.{up, count, over};
ghost use Rattle.bounds.specs.Bounds.{is_north, is_beside, slack as slack_of, north_bursts, room as room_of};
ghost use Rattle.bounds.specs.Lines.{asked, line_of, line_at, least_burst};

use super::{Line, Lines, Turn};
use crate::sums::slack;
use crate::turns::{flow_at, other_slacks, room};
use quantity::{Rate, Units};
use std::array;
use table::{Flow, Table};
use torus::{Torus, turn};

// Whether there is a flow `k` and it comes from the north.
fn is_northern(flows: &[Flow], torus: Torus, k: usize, router: (u8, u8)) -> bool
    ensures { k < length flows.now → result ≡ path.north torus.side (slice_index_or flows.now k blank) router }
{
    flows.get(k).is_some_and(|flow| torus.north(flow, router))
}

// Which flows come from the north.
fn northern(table: &Table, router: (u8, u8)) -> [bool; 64]
    ensures long { length result ≡ 64 }
    ensures each { (k : ℕ) → k < count (content table.now) → slice_index_or result k false ≡ is_north (content table.now) router k }
{
    let torus = Torus::from(table.dimensions());
    let flows = table.flows();
    array::from_fn(|k| is_northern(flows, torus, k, router))
}

// The turn of flow `k`, which brings `rate` in a step, at the router.
fn turn_at(table: &Table, k: usize, rate: Rate, router: (u8, u8)) -> Turn
    ensures { (x : ℕ → ℕ) → asked (count (content table.now)) x result ≡ up (rate.0 * (north_bursts (content table.now) x router + over (content table.now) (is_beside (content table.now) k router) (slack_of (content table.now)))) (room_of (content table.now) router) }
{
    Turn {
        rate,
        others: other_slacks(table, k, router),
        room: room(table, router),
        north: northern(table, router),
    }
}

// What stands behind the last flow's line.
const NO_LINE: Line = Line {
    slack: Units(0),
    turn: None,
};

// The line of flow `k`, counted from 0.
fn line_of(table: &Table, k: usize) -> Line
    ensures { (x : ℕ → ℕ) → line_of (count (content table.now)) x result ≡ least_burst (content table.now) x k }
{
    let flow = flow_at(table, k);
    Line {
        slack: slack(table.dimensions().frame, &flow),
        turn: turn(&flow).map(|router| turn_at(table, k, flow.rate, router)),
    }
}

// The lines of a table's flows.
// (put in place: `array::from_fn` would make all 64 lines, whatever the count)
pub fn lines_of(table: &Table) -> Lines
    ensures count { result.count ≡ count (content table.now) }
    ensures each { (i : ℕ) → i < count (content table.now) → (x : ℕ → ℕ) → line_at result x i ≡ least_burst (content table.now) x i }
{
    let mut lines = [NO_LINE; 64];
    let count = table.flows().len();
    for (k, line) in lines[..count].iter_mut().enumerate() {
        *line = line_of(table, k);
    }
    Lines { count, lines }
}
