// The routers that a flow goes by.
ghost use Rattle.std.specs.Prelude.{◌≡◌, ◌<◌};
ghost use Rattle.torus.specs.Paths as path;
ghost use Rattle.torus.specs.Walks.{WalksThrough, WalksNorth, WalksHops};

use crate::routers::Torus;
use quantity::Steps;
use table::Flow;

// Whether the flow leaves its source east.
pub fn turns(flow: &Flow) -> bool
    ensures { result ≡ path.turns flow.now }
{
    flow.source.0 != flow.destination.0
}

// The router where the flow turns from east to south.
pub fn turn(flow: &Flow) -> Option<(u8, u8)>
    ensures { result ≡ path.turn_of flow.now }
{
    turns(flow).then_some((flow.destination.0, flow.source.1))
}

pub fn turns_at(flow: &Flow, router: (u8, u8)) -> bool
    ensures { result ≡ path.turns_at flow.now router }
{
    turn(flow) == Some(router)
}

impl Torus {
    // Whether the flow passes the router straight east.
    pub fn through(self, flow: &Flow, router: (u8, u8)) -> bool
        ensures value { result ≡ path.through self.side flow.now router }
        ensures walk { WalksThrough self.side flow.now router result }
    {
        let east = self.ahead(flow.source.0, router.0);
        flow.source.1 == router.1
            && 0 < east
            && east < self.ahead(flow.source.0, flow.destination.0)
    }

    // Whether the flow reaches the router from the north; it may end there.
    pub fn north(self, flow: &Flow, router: (u8, u8)) -> bool
        ensures value { result ≡ path.north self.side flow.now router }
        ensures walk { WalksNorth self.side flow.now router result }
    {
        let south = self.ahead(flow.source.1, router.1);
        flow.destination.0 == router.0
            && 0 < south
            && south <= self.ahead(flow.source.1, flow.destination.1)
    }

    // The steps of a packet that never waits.
    pub fn hops(self, flow: &Flow) -> Steps
        ensures value { result.0 ≡ path.hops self.side flow.now }
        ensures walk { WalksHops self.side flow.now result.0 }
        ensures small { result.0 < 1000 }
    {
        let east = self.ahead(flow.source.0, flow.destination.0);
        let south = self.ahead(flow.source.1, flow.destination.1);
        Steps(u64::from(east) + u64::from(south) + 1)
    }
}
