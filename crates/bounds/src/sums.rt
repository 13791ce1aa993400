// Sums over flows of a table, each told to a closure with its index, counted from 0.
// (`small` stands at each sum: a struct for a sum and its bound would be taken apart at every use)
ghost use Rattle.std.specs.Prelude.{◌≡◌, ℕ, ◌-◌, ◌*◌, ◌^◌, ◌<◌, ◌≤◌, Bool};
ghost use Rattle.table.specs.Content.{content};
ghost use Rattle.bounds.specs.Sums.{over, units_of};
ghost use Rattle.bounds.specs.Calls.{Answers, Narrow};
ghost use Rattle.bounds.specs.Bounds.{frame as frame_of, rate, slack as slack_of};

use crate::Bounds;
use quantity::{Frame, Units};
use table::{Flow, Table};

// The values of the flows that pass the test, together. A loop: a chain's clauses need what its
// closures answer for every flow that there could be, and not only for those of the table.
fn total<T, V>(table: &Table, test: T, value: V) -> u64
where
    T: Fn(usize, &Flow) -> bool,
    V: Fn(usize, &Flow) -> u32,
    requires test { T.IsAlwaysCallable test }
    requires value { V.IsAlwaysCallable value }
    ensures value { (p : ℕ → Bool) (w : ℕ → ℕ) → Answers (content table.now) (T.post test) p → Answers (content table.now) (V.post value) w → result ≡ over (content table.now) p w }
    ensures small { result ≤ 64 * 4294967295 }
    ensures narrow { Narrow (V.post value) → result ≤ 64 * 65535 }
{
    let mut sum = 0;
    for (k, flow) in table.flows().iter().enumerate() {
        if test(k, flow) {
            sum += u64::from(value(k, flow));
        }
    }
    sum
}

// The units of a packet.
pub(crate) fn frame(table: &Table) -> u64
    ensures value { result ≡ frame_of (content table.now) }
    ensures small { result < 2 ^ 16 }
{
    u64::from(table.dimensions().frame.0)
}

// A flow's rate; a function of its own, so that `rates` knows of its 16 bits.
fn rate_of(_: usize, flow: &Flow) -> u32
    ensures value { result ≡ flow.now.rate.0 }
    ensures small { result ≤ 65535 }
{
    u32::from(flow.rate.0)
}

pub(crate) fn rates<T: Fn(usize, &Flow) -> bool>(table: &Table, test: T) -> u64
    requires { T.IsAlwaysCallable test }
    ensures value { (p : ℕ → Bool) → Answers (content table.now) (T.post test) p → result ≡ over (content table.now) p (rate (content table.now)) }
    ensures small { result ≤ 64 * 65535 }
{
    total(table, test, rate_of)
}

// What a flow may send at once, less what a step brings.
pub(crate) fn slack(frame: Frame, flow: &Flow) -> Units
    ensures { result.0 ≡ flow.now.burst.0 * frame.0 - flow.now.rate.0 }
{
    let burst = flow.burst.in_units(frame);
    Units(burst.0.saturating_sub(Units::from(flow.rate).0))
}

pub(crate) fn slacks<T: Fn(usize, &Flow) -> bool>(table: &Table, test: T) -> u64
    requires { T.IsAlwaysCallable test }
    ensures value { (p : ℕ → Bool) → Answers (content table.now) (T.post test) p → result ≡ over (content table.now) p (slack_of (content table.now)) }
    ensures small { result ≤ 64 * 4294967295 }
{
    let frame = table.dimensions().frame;
    total(table, test, |_, flow| slack(frame, flow).0)
}

impl Bounds<'_> {
    pub(crate) fn bursts_of<T: Fn(usize, &Flow) -> bool>(&self, test: T) -> u64
        requires { T.IsAlwaysCallable test }
        ensures value { (p : ℕ → Bool) → Answers (content self.now.table.now) (T.post test) p → result ≡ over (content self.now.table.now) p (units_of self.now.bursts.now) }
        ensures small { result ≤ 64 * 4294967295 }
    {
        let bursts = self.bursts;
        total(
            self.table,
            test,
            |k, _| bursts.get(k).copied().unwrap_or(Units(0)).0,
        )
    }
}
