// What every regulator does, said of its meaning alone.
ghost use Rattle.std.specs.Prelude.{◌≡◌, false};
ghost use Rattle.table.specs.Content.{content};
ghost use Rattle.regulator.specs.Meaning.{Meaning, Lawful, Tells, covers, taken, passed};
ghost use Rattle.regulator.specs.Making.{Made};

use crate::bucket::Bucket;
use plan::Plan;
use quantity::{Frame, Packets, Rate};
use table::Fault;

pub trait Regulator: Copy {
    ghost meaning: { Self → Meaning };

    // A full regulator for a flow of the plan, by the flow's number, which counts from 1.
    fn fresh(plan: &Plan, number: usize) -> Result<Self, Fault>
        ensures { Made meaning (content plan.now.table) number result };

    // The numbers that never change.
    fn bucket(&self) -> Bucket
        ensures { Tells (meaning self.now) result };

    // Whether the allowance is that of a packet or more.
    fn covered(&self) -> bool
        ensures { result ≡ covers (meaning self.now) };

    // Takes the allowance of a packet and answers yes if covered; else answers no and alters nothing.
    fn take(&mut self) -> bool
        ensures answer { result ≡ covers (meaning self.old) }
        ensures after { meaning self.new ≡ taken (meaning self.old) }
        ensures stays { result ≡ false → self.new ≡ self.old };

    // One step: the allowance rises by the rate, up to full.
    fn pass(&mut self)
        ensures { meaning self.new ≡ passed (meaning self.old) };

    ghost lawful: { (x : Self) → Lawful (meaning x) };

    final fn burst(&self) -> Packets
        ensures { result.0 ≡ (meaning self.now).burst }
    {
        self.bucket().burst
    }

    final fn rate(&self) -> Rate
        ensures { result.0 ≡ (meaning self.now).rate }
    {
        self.bucket().rate
    }

    final fn frame(&self) -> Frame
        ensures { result.0 ≡ (meaning self.now).frame }
    {
        self.bucket().frame
    }
}
