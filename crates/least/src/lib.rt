// The least entries that meet a system of lines.
#![tactic(auto)]

ghost use Rattle.std.specs.Prelude.{◌≡◌, ℕ, ◌<◌, length};
ghost use Rattle.least.specs.Systems.{entries_of, Monotone, Capped};

mod passes;
#[cfg(test)]
mod tests;

pub use passes::{pass, search};

// Lines over a row of numbers: an entry must be at least its line and at most its ceiling.
pub trait System {
    // How many entries there are.
    ghost lines: { Self → ℕ };

    // The least that an entry may be, given all entries.
    ghost line: { Self → (ℕ → ℕ) → ℕ → ℕ };

    // The most that an entry may be.
    ghost ceiling: { Self → ℕ → ℕ };

    // The line of entry `i`, or nothing where it passes the ceiling.
    fn evaluate(&self, entries: &[u32], i: usize) -> Option<u32>
        requires long { length entries.now ≡ lines self.now }
        requires within { i < lines self.now }
        ensures { Capped (line self.now (entries_of entries.now) i) (ceiling self.now i) result };

    // Raising an entry lowers no line.
    ghost monotone: { (s : Self) → Monotone (lines s) (line s) };
}

// No entries meet the system.
#[derive(Clone, Copy, PartialEq, Eq, Debug)]
pub struct Unmet;
