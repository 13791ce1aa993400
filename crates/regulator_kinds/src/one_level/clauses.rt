// What the one-level kind does.
ghost use Rattle.std.specs.Prelude.{◌≡◌};
ghost use Rattle.regulator.specs.Meaning.{lawful_with};
ghost use Rattle.regulator_kinds.specs.Kinds.{one_level};

use super::OneLevel;
use plan::Plan;
use quantity::Units;
use regulator::{Bucket, Regulator};
use table::Fault;

impl OneLevel {
    // The allowance.
    pub fn level(&self) -> Units
        ensures { result.0 ≡ (one_level self.now).allowance }
    {
        self.level
    }
}

impl Regulator for OneLevel {
    ghost meaning = { one_level };

    ghost lawful = { λ x. lawful_with x.bucket x.level.0 x.within };

    fn fresh(plan: &Plan, number: usize) -> Result<OneLevel, Fault> {
        let bucket = Bucket::of_flow(plan, number)?;
        Ok(OneLevel {
            bucket,
            level: bucket.full(),
        })
    }

    fn bucket(&self) -> Bucket {
        self.bucket
    }

    fn covered(&self) -> bool {
        Units::from(self.bucket.frame).0 <= self.level.0
    }

    fn take(&mut self) -> bool {
        let Some(left) = self.level.0.checked_sub(Units::from(self.bucket.frame).0) else {
            return false;
        };
        self.level = Units(left);
        true
    }

    fn pass(&mut self) {
        let risen = self.level.0 + Units::from(self.bucket.rate).0;
        self.level = Units(risen.min(self.bucket.full().0));
    }
}
