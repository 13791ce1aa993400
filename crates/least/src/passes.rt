// The passes that raise entries to their lines, and the search that repeats them.
// No struct holds a system and its entries: its methods would have to say that they keep both.
ghost use Rattle.std.specs.Prelude.{OnOk};
ghost use Rattle.least.specs.Passes.{Ready, Passed, Found, OnLines};

use crate::{System, Unmet};

// Raises each entry that is below its line to its line, and answers whether there was one.
pub fn pass<S: System>(system: &S, entries: &mut [u32]) -> Result<bool, Unmet>
    requires { Ready S.System system.now entries.old }
    ensures { Passed S.System system.now entries.old entries.new result }
{
    let mut raised = false;
    // A line reads all entries, so there is no `iter_mut`.
    for i in 0..entries.len() {
        let least = system.evaluate(entries, i).ok_or(Unmet)?;
        if entries[i] < least {
            entries[i] = least;
            raised = true;
        }
    }
    Ok(raised)
}

// Raises entries that are at or below every solution to the least solution.
pub fn search<S: System>(system: &S, entries: &mut [u32]) -> Result<(), Unmet>
    requires { Ready S.System system.now entries.old }
    ensures found { Found S.System system.now entries.old entries.new result }
    ensures on_lines { OnOk result (OnLines S.System system.now entries.new) }
{
    while pass(system, entries)? {}
    Ok(())
}
