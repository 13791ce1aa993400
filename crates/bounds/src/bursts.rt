// The least bursts of a table's flows.
ghost use Rattle.std.specs.Prelude.{◌≡◌, ℕ, ◌≤◌, length};
ghost use Rattle.table.specs.Content.{content};
ghost use Rattle.least.specs.Systems.{entries_of};
ghost use Rattle.bounds.specs.Sums.{units_of};
ghost use Rattle.bounds.specs.Lines.{Solved};
ghost use Rattle.bounds.specs.Bursts.{Bounded};

use crate::lines::{Lines, lines_of};
use least::{Unmet, search};
use quantity::Units;
use std::array;
use table::Table;

// The numbers as units, and nothing behind them.
fn in_units(entries: &[u32]) -> [Units; 64]
    requires { length entries.now ≤ 64 }
    ensures long { length result ≡ 64 }
    ensures each { (k : ℕ) → units_of result k ≡ entries_of entries.now k }
{
    array::from_fn(|k| Units(entries.get(k).copied().unwrap_or(0)))
}

// The least solution of the lines, found from nothing.
fn solve(lines: &Lines, place: &mut [u32]) -> Result<(), Unmet>
    requires { length place.old ≡ lines.now.count }
    ensures { Solved lines.now place.new result }
{
    place.fill(0);
    search(lines, place)
}

// The least bursts that keep the rules, with nothing behind the last flow, or that none do.
pub fn least_bursts(table: &Table) -> Result<[Units; 64], Unmet>
    ensures { Bounded (content table.now) result }
{
    let mut entries = [0; 64];
    let place = &mut entries[..table.flows().len()];
    solve(&lines_of(table), place)?;
    Ok(in_units(place))
}
