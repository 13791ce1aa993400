// Searching the routers of a table's torus.
ghost use Rattle.std.specs.Prelude.{◌≡◌, ℕ, Bool, MatchOption};
ghost use Rattle.table.specs.Content.{content};
ghost use Rattle.bounds.specs.Bounds.{side};
ghost use Rattle.plan.specs.Order.{Tells, Nowhere, FirstRouter};

use table::Table;

// The first router, row by row, that the test holds of.
pub(crate) fn first_router<F: Fn((u8, u8)) -> bool>(table: &Table, test: F) -> Option<(u8, u8)>
    requires { F.IsAlwaysCallable test }
    ensures { (holds : ℕ × ℕ → Bool) → Tells (side (content table.now)) (F.post test) holds → MatchOption result (Nowhere (side (content table.now)) holds) (FirstRouter (side (content table.now)) holds) }
{
    let side = table.dimensions().side;
    for y in 0..side {
        for x in 0..side {
            if test((x, y)) {
                return Some((x, y));
            }
        }
    }
    None
}
