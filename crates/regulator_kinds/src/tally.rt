// A tally stands on any regulator, means what that one means, and counts the takes that were granted.
ghost use Rattle.std.specs.Prelude.{◌≡◌, ◌+◌, min, false, IfOk, if◌then◌else◌};
ghost use Rattle.table.specs.Content.{content};
ghost use Rattle.regulator.specs.Meaning.{covers, taken, passed};
ghost use Rattle.regulator.specs.Making.{Made};
ghost use Rattle.std.proofs.Common.{rules};

use plan::Plan;
use regulator::{Bucket, Regulator};
use table::Fault;

#[derive(Clone, Copy)]
pub struct Tally<R> {
    below: R,
    granted: u32,
}

impl<R: Regulator> Tally<R> {
    // The takes that were granted since it was fresh.
    pub fn granted(&self) -> u32
        ensures { result ≡ self.now.granted }
    {
        self.granted
    }
}

impl<R: Regulator> Regulator for Tally<R> {
    ghost meaning = { λ t. R.Regulator.meaning t.below };

    ghost lawful = { Prim.search rules };

    fn fresh(plan: &Plan, number: usize) -> Result<Tally<R>, Fault>
        ensures made { Made (λ t. R.Regulator.meaning t.below) (content plan.now.table) number result }
        ensures counted { IfOk result (λ t. t.granted ≡ 0) }
    {
        let below = R::fresh(plan, number)?;
        Ok(Tally { below, granted: 0 })
    }

    fn bucket(&self) -> Bucket {
        self.below.bucket()
    }

    fn covered(&self) -> bool {
        self.below.covered()
    }

    // The count goes up with each take that is granted, and stays at the largest number.
    fn take(&mut self) -> bool
        ensures answer { result ≡ covers (R.Regulator.meaning self.old.below) }
        ensures after { R.Regulator.meaning self.new.below ≡ taken (R.Regulator.meaning self.old.below) }
        ensures stays { result ≡ false → self.new ≡ self.old }
        ensures counted { self.new.granted ≡ (if result then min 4294967295 (self.old.granted + 1) else self.old.granted) }
    {
        let granted = self.below.take();
        if granted {
            self.granted = self.granted.saturating_add(1);
        }
        granted
    }

    fn pass(&mut self)
        ensures after { R.Regulator.meaning self.new.below ≡ passed (R.Regulator.meaning self.old.below) }
        ensures counted { self.new.granted ≡ self.old.granted }
    {
        self.below.pass();
    }
}
