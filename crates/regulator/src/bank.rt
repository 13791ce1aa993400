// A bank: the regulators of a plan's flows in a lent slice, that of flow 1 first.
ghost use Rattle.std.specs.Prelude.{◌≡◌, ℕ, false, ◌≢◌, map};
ghost use Rattle.std.specs.List.{slice_get};
ghost use Rattle.table.specs.Content.{content};
ghost use Rattle.regulator.specs.Meaning.{covers, passed};
ghost use Rattle.regulator.specs.Banks.{at, taken_at, tells, FirstOther};

use crate::regulator::Regulator;
use plan::Plan;
use quantity::Frame;
use table::Flow;

// Whether the regulator at a place, counted from 0, is covered; none is behind the end.
pub fn covered_at<R: Regulator>(bank: &[R], place: usize) -> bool
    ensures { result ≡ covers (at (map R.Regulator.meaning bank.now) place) }
{
    bank.get(place).is_some_and(|regulator| regulator.covered())
}

// Asks the regulator at a place to take; no other is altered, and none where the answer is no.
pub fn take_at<R: Regulator>(bank: &mut [R], place: usize) -> bool
    ensures answer { result ≡ covers (at (map R.Regulator.meaning bank.old) place) }
    ensures after { map R.Regulator.meaning bank.new ≡ taken_at (map R.Regulator.meaning bank.old) place }
    ensures others { (k : ℕ) → k ≢ place → slice_get bank.new k ≡ slice_get bank.old k }
    ensures stays { result ≡ false → bank.new ≡ bank.old }
{
    // (by its index: after `get_mut` a proof knows no regulator of the bank)
    if place < bank.len() {
        return bank[place].take();
    }
    false
}

// One step: every regulator passes once.
pub fn pass_all<R: Regulator>(bank: &mut [R])
    ensures { map R.Regulator.meaning bank.new ≡ map passed (map R.Regulator.meaning bank.old) }
{
    for regulator in bank.iter_mut() {
        regulator.pass();
    }
}

// Whether a regulator tells the flow's burst and rate, and the frame.
fn agrees<R: Regulator>(regulator: &R, flow: &Flow, frame: Frame) -> bool
    ensures { result ≡ tells (R.Regulator.meaning regulator.now) flow.now frame.0 }
{
    regulator.burst().0 == flow.burst.0
        && regulator.rate().0 == flow.rate.0
        && regulator.frame().0 == frame.0
}

// The lowest flow, by its number, whose regulator tells other numbers than the plan has.
pub fn first_other<R: Regulator>(bank: &[R], plan: &Plan) -> Option<usize>
    ensures { FirstOther (content plan.now.table) (map R.Regulator.meaning bank.now) result }
{
    let frame = plan.table().dimensions().frame;
    let flows = plan.table().flows();
    // (the regulators behind the last flow are not looked at: a search would go through all of them)
    let bank = &bank[..bank.len().min(flows.len())];
    bank.iter().enumerate().find_map(|(k, regulator)| {
        let flow = flows.get(k)?;
        (!agrees(regulator, flow, frame)).then_some(k + 1)
    })
}
