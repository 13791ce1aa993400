// A plan: a table with its least bursts and its routers' backlogs.
ghost use Rattle.std.specs.Prelude.{◌≡◌, ◌≤◌, length};
ghost use Rattle.table.specs.Content.{content};
ghost use Rattle.bounds.specs.Sums.{count, units_of};
ghost use Rattle.bounds.specs.Bounds.{side, saturated, crowded, Straight, Turning, Capped, Minimal};
ghost use Rattle.bounds.specs.Bursts.{Ends};
ghost use Rattle.plan.specs.Order.{NoneBelow, Nowhere};
ghost use Rattle.plan.specs.Faults.{Faultless};
ghost use Rattle.plan.specs.Plans.{Ranged, Backlogs, Over, Deep};

use quantity::{Packets, Units};
use table::Table;

mod build;
mod read;

// Every plan that exists keeps all rules. Entries behind the last flow and the last router are
// nothing, so that a table has only one plan; the arrays are fixed memory, by flow and by router.
#[derive(Clone, Copy)]
pub struct Plan {
    table: Table,
    bursts: [Units; 64],
    backlogs: [Packets; 64],
    ghost few: { count (content table) ≤ 64 },
    ghost long: { (length bursts ≡ 64) × (length backlogs ≡ 64) },
    ghost ranged: { Ranged (content table) },
    ghost faultless: { Faultless (content table) (count (content table)) },
    ghost roomy: { Nowhere (side (content table)) (saturated (content table)) },
    ghost calm: { NoneBelow (count (content table)) (crowded (content table)) },
    ghost straight: { Straight (content table) (units_of bursts) },
    ghost turning: { Turning (content table) (units_of bursts) },
    ghost capped: { Capped (content table) (units_of bursts) },
    ghost minimal: { Minimal (content table) (units_of bursts) },
    ghost ends: { Ends (content table) bursts },
    ghost queues: { Backlogs (content table) (units_of bursts) backlogs },
    ghost over: { Over (content table) backlogs },
    ghost deep: { Deep (content table) (units_of bursts) },
}
