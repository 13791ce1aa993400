// Routers by column and row, and by their number, row by row.
ghost use Rattle.std.specs.Prelude.{◌≡◌};
ghost use Rattle.torus.specs.Paths as path;
ghost use Rattle.torus.specs.Paths.{Next, Ahead, RouterBack, IndexBack};

use table::Dimensions;

// A torus of side times side routers.
#[derive(Clone, Copy, PartialEq, Eq, Debug)]
pub struct Torus {
    pub side: u8,
}

impl From<Dimensions> for Torus {
    ghost from_gives = { λ d t. t.side ≡ d.side };

    fn from(dimensions: Dimensions) -> Torus {
        Torus {
            side: dimensions.side,
        }
    }
}

impl Torus {
    // One on, round a ring.
    fn next(self, a: u8) -> u8
        ensures value { result ≡ path.next self.side a }
        ensures ring { Next self.side a result }
    {
        a.checked_add(1)
            .filter(|next| *next < self.side)
            .unwrap_or(0)
    }

    // Steps from `a` on to `b`, round a ring.
    pub(crate) fn ahead(self, a: u8, b: u8) -> u8
        ensures value { result ≡ path.ahead self.side a b }
        ensures ring { Ahead self.side a b result }
    {
        if a <= b {
            b - a
        } else {
            self.side.saturating_sub(a - b)
        }
    }

    // The next router east, round its row.
    pub fn east(self, router: (u8, u8)) -> (u8, u8)
        ensures value { result ≡ (path.next self.side router.0, router.1) }
        ensures ring { Next self.side router.0 result.0 }
    {
        (self.next(router.0), router.1)
    }

    // The next router south, round its column.
    pub fn south(self, router: (u8, u8)) -> (u8, u8)
        ensures value { result ≡ (router.0, path.next self.side router.1) }
        ensures ring { Next self.side router.1 result.1 }
    {
        (router.0, self.next(router.1))
    }

    // The router of a number, row by row from 0.
    pub fn router_at(self, index: usize) -> Option<(u8, u8)>
        ensures value { result ≡ path.router_at self.side index }
        ensures back { RouterBack self.side index result }
    {
        let m = usize::from(self.side);
        (index < m * m).then(|| ((index % m) as u8, (index / m) as u8))
    }

    // The number of a router.
    pub fn index_of(self, router: (u8, u8)) -> Option<usize>
        ensures value { result ≡ path.index_of self.side router }
        ensures back { IndexBack self.side router result }
    {
        let (x, y) = router;
        if x < self.side && y < self.side {
            Some(usize::from(y) * usize::from(self.side) + usize::from(x))
        } else {
            None
        }
    }
}
