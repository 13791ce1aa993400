// The lines as a system.
ghost use Rattle.std.specs.Prelude.{◌≡◌, ◌^◌, ◌<◌, ◌≤◌, length};
ghost use Rattle.least.specs.Systems.{entries_of, Capped};
ghost use Rattle.bounds.specs.Bounds.{ceiling as most};
ghost use Rattle.bounds.specs.Lines.{brought, asked, line_of, line_at};
ghost use Rattle.bounds.specs.Systems;

use super::{Line, Lines, Turn};
use crate::rounding::divide_up;
use least::System;

// No burst is larger.
const CEILING: u64 = 131_072;

// What the flows from the north bring together; with an `if` in place of the product, the longest
// admission takes 10 ms and not 6.
fn from_north(north: &[bool; 64], entries: &[u32]) -> u64
    requires { brought north.now entries.now < 2 ^ 64 }
    ensures { result ≡ brought north.now entries.now }
{
    north
        .iter()
        .zip(entries)
        .map(|(north, entry)| u64::from(*north) * u64::from(*entry))
        .sum()
}

impl Turn {
    // What the flow's burst has to be at least beside its slack.
    #[tactic(auto, using(crate::proofs::Over::brought_small, crate::proofs::Over::brought_north, crate::proofs::Over::asked_small))]
    fn value(&self, entries: &[u32]) -> u64
        requires { length entries.now ≤ 64 }
        ensures value { result ≡ asked (length entries.now) (entries_of entries.now) self.now }
        ensures small { result ≤ 2 ^ 60 }
    {
        let met = from_north(&self.north, entries) + self.others;
        divide_up(u64::from(self.rate.0) * met, self.room)
    }
}

impl Line {
    // The least that the flow's burst may be.
    fn value(&self, entries: &[u32]) -> u64
        requires { length entries.now ≤ 64 }
        ensures { result ≡ line_of (length entries.now) (entries_of entries.now) self.now }
    {
        let asked = self.turn.as_ref().map_or(0, |turn| turn.value(entries));
        u64::from(self.slack.0) + asked
    }
}

// The burst, where it keeps the ceiling.
fn capped(burst: u64) -> Option<u32>
    ensures { Capped burst most result }
{
    (burst <= CEILING).then(|| burst as u32)
}

impl System for Lines {
    ghost lines = { λ s. s.count };

    ghost line = { line_at };

    ghost ceiling = { λ _ _. most };

    ghost monotone = { λ s. Systems.monotone s };

    fn evaluate(&self, entries: &[u32], i: usize) -> Option<u32> {
        capped(self.lines[i].value(entries))
    }
}
