// Routers and paths, worked out by hand.
use super::*;
use quantity::{Packets, Rate};
use table::Flow;

#[test]
fn neighbours(rt: HostRuntime) {
    // side, router, the one east, the one south
    let cases = [
        (1, (0, 0), (0, 0), (0, 0)),
        (3, (1, 1), (2, 1), (1, 2)),
        (3, (2, 0), (0, 0), (2, 1)),
        (3, (0, 2), (1, 2), (0, 0)),
        (255, (254, 254), (0, 254), (254, 0)),
    ];
    for (side, router, to_east, to_south) in cases {
        let torus = Torus { side };
        assert!(rt; torus.east(router) == to_east);
        assert!(rt; torus.south(router) == to_south);
    }
}

#[test]
fn numbers(rt: HostRuntime) {
    let cases = [
        (3, 0, (0, 0)),
        (3, 5, (2, 1)),
        (3, 7, (1, 2)),
        (4, 6, (2, 1)),
        (255, 255, (0, 1)),
        (255, 65024, (254, 254)),
    ];
    for (side, index, router) in cases {
        let torus = Torus { side };
        assert!(rt; torus.router_at(index) == Some(router));
        assert!(rt; torus.index_of(router) == Some(index));
    }
    assert!(rt; Torus { side: 0 }.router_at(0) == None);
    assert!(rt; Torus { side: 3 }.router_at(9) == None);
    assert!(rt; Torus { side: 3 }.index_of((3, 0)) == None);
    assert!(rt; Torus { side: 3 }.index_of((0, 3)) == None);
}

// Each flow drawn row by row: s its source, > through, t its turn, v from the north.
#[test]
fn paths(rt: HostRuntime) {
    let cases: [(u8, (u8, u8), (u8, u8), u64, &[u8]); 8] = [
        (2, (1, 0), (1, 0), 1, b".s .."),
        (3, (0, 1), (2, 1), 3, b"... s>t ..."),
        (3, (1, 1), (2, 0), 4, b"..v .st ..v"),
        (3, (2, 1), (2, 2), 2, b"... ..s ..v"),
        (3, (1, 2), (2, 1), 4, b"..v ..v .st"),
        (3, (2, 0), (1, 0), 3, b">ts ... ..."),
        (4, (2, 3), (1, 1), 6, b".v.. .v.. .... >ts>"),
        (4, (1, 2), (1, 1), 4, b".v.. .v.. .s.. .v.."),
    ];
    for (side, source, destination, steps, drawing) in cases {
        let flow = Flow {
            source,
            destination,
            burst: Packets(1),
            rate: Rate(100),
        };
        let torus = Torus { side };
        let mut router = (0, 0);
        let mut corner = None;
        for mark in drawing {
            if *mark == b' ' {
                router = torus.south(router);
                continue;
            }
            if *mark == b't' {
                corner = Some(router);
            }
            assert!(rt; turns_at(&flow, router) == (*mark == b't'));
            assert!(rt; torus.through(&flow, router) == (*mark == b'>'));
            assert!(rt; torus.north(&flow, router) == (*mark == b'v'));
            router = torus.east(router);
        }
        assert!(rt; turn(&flow) == corner);
        assert!(rt; turns(&flow) == corner.is_some());
        assert!(rt; torus.hops(&flow).0 == steps);
    }
}
