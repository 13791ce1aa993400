// A small system, solved and unsolved.
ghost use Rattle.std.specs.Prelude.{◌+◌, if◌then◌else◌, nat_eq};
ghost use Rattle.least.specs.Systems.{Capped};
ghost use Rattle.std.proofs.Common.{rules};

use super::{System, Unmet, pass, search};
use std::test::Fail;

// Entry 0 is at least 1, entry 1 at least 2 more than entry 0, and both are at most the number.
#[derive(Clone, Copy)]
struct Pair(u32);

impl Pair {
    fn capped(self, least: u64) -> Option<u32>
        ensures { Capped least self.0 result }
    {
        u32::try_from(least).ok().filter(|line| *line <= self.0)
    }
}

impl System for Pair {
    ghost lines = { λ _. 2 };

    ghost line = { λ _ x i. (if nat_eq i 0 then 1 else x 0 + 2) };

    ghost ceiling = { λ s _. s.0 };

    ghost monotone = { Prim.search rules };

    fn evaluate(&self, entries: &[u32], i: usize) -> Option<u32> {
        if i == 0 {
            self.capped(1)
        } else {
            self.capped(u64::from(entries[0]) + 2)
        }
    }
}

#[test]
fn least_entries(rt: HostRuntime) -> Result<(), Fail> {
    let mut entries = [0, 0];
    search(&Pair(10), &mut entries)?;
    assert_eq!(rt; entries, [1, 3]);
    Ok(())
}

#[test]
fn no_entries(rt: HostRuntime) {
    let mut entries = [0, 0];
    assert_eq!(rt; search(&Pair(2), &mut entries), Err(Unmet));
}

#[test]
fn one_pass(rt: HostRuntime) -> Result<(), Fail> {
    let mut entries = [1, 0];
    assert!(rt; pass(&Pair(3), &mut entries)?);
    assert_eq!(rt; entries, [1, 3]);
    Ok(())
}
