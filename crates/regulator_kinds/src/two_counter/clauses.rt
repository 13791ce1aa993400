// What the two-counter kind does.
ghost use Rattle.std.specs.Prelude.{◌≡◌, ◌/◌, ◌%◌};
ghost use Rattle.regulator.specs.Meaning.{lawful_with};
ghost use Rattle.regulator_kinds.specs.Kinds.{two_counter};
ghost use Rattle.regulator_kinds.specs.Counters.{at_most};

use super::TwoCounter;
use plan::Plan;
use quantity::{Packets, Units};
use regulator::{Bucket, Regulator};
use table::Fault;

impl TwoCounter {
    // The whole packets of the allowance.
    pub fn tokens(&self) -> Packets
        ensures { result.0 ≡ (two_counter self.now).allowance / (two_counter self.now).frame }
    {
        self.tokens
    }

    // What it has beyond them.
    pub fn phase(&self) -> Units
        ensures { result.0 ≡ (two_counter self.now).allowance % (two_counter self.now).frame }
    {
        self.phase
    }
}

impl Regulator for TwoCounter {
    ghost meaning = { two_counter };

    ghost lawful = { λ x. lawful_with x.bucket _ (at_most _ _ _ _ x.within x.part x.brim) };

    fn fresh(plan: &Plan, number: usize) -> Result<TwoCounter, Fault> {
        let bucket = Bucket::of_flow(plan, number)?;
        Ok(TwoCounter {
            bucket,
            tokens: bucket.burst,
            phase: Units(0),
        })
    }

    fn bucket(&self) -> Bucket {
        self.bucket
    }

    fn covered(&self) -> bool {
        self.tokens.0 > 0
    }

    fn take(&mut self) -> bool {
        let Some(left) = self.tokens.0.checked_sub(1) else {
            return false;
        };
        self.tokens = Packets(left);
        true
    }

    // A full bucket stays full, and its phase stays 0: it does not run on.
    fn pass(&mut self) {
        if self.tokens.0 == self.bucket.burst.0 {
            return;
        }
        let packet = Units::from(self.bucket.frame);
        let risen = self.phase.0 + Units::from(self.bucket.rate).0;
        if risen < packet.0 {
            self.phase = Units(risen);
            return;
        }
        self.tokens = Packets(self.tokens.0 + 1);
        self.phase = if self.tokens.0 == self.bucket.burst.0 {
            Units(0)
        } else {
            Units(risen - packet.0)
        };
    }
}
