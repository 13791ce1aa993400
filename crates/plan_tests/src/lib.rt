// Examples of plans: what they tell, and what refuses them.

#![tactic(auto)]

#[cfg(test)]
mod tests {
    use plan::{Plan, PlanFault};
    use quantity::{Depth, Frame, Packets, Rate};
    use std::test::Fail;
    use table::{Dimensions, Fault, Flow, Layer, Place, Table};

    fn dimensions(side: u8, depth: u8, frame: u16) -> Dimensions {
        Dimensions {
            side,
            depth: Depth(depth),
            frame: Frame(frame),
        }
    }

    fn flow(source: (u8, u8), destination: (u8, u8), burst: u16, rate: u16) -> Flow {
        Flow {
            source,
            destination,
            burst: Packets(burst),
            rate: Rate(rate),
        }
    }

    fn table(dimensions: Dimensions, flows: &[Flow]) -> Table {
        let mut table = Table::new(dimensions);
        for flow in flows {
            table.add(*flow).ok();
        }
        table
    }

    fn five() -> Table {
        let flows = [
            flow((0, 1), (2, 1), 1, 100),
            flow((1, 1), (2, 0), 1, 100),
            flow((1, 1), (1, 2), 1, 100),
            flow((2, 1), (2, 2), 1, 100),
            flow((1, 2), (2, 1), 1, 100),
        ];
        table(dimensions(3, 8, 400), &flows)
    }

    fn refused(number: u8, place: Place) -> Fault {
        Fault {
            number,
            layer: Layer::Plan,
            place,
        }
    }

    // Flow 4 of the five flows waits 21 steps and has burst 300.
    fn tells_flow_4(plan: &Plan) -> bool {
        plan.flow(4).is_some_and(|flow| {
            flow.wait.0 == 21 && flow.burst.0 == 300 && flow.latency.0 == 23
        })
    }

    fn count_of(plan: Plan) -> usize {
        plan.table().flows().len()
    }

    // A plan is a plain value: one function may pass it on twice.
    fn counts_of(plan: Plan) -> (usize, usize) {
        (count_of(plan), count_of(plan))
    }

    #[test]
    fn tells_flows_and_routers(rt: HostRuntime) -> Result<(), Fail> {
        let mut plan = Plan::empty();
        assert!(rt; plan.admit(&five()).is_ok());
        assert!(rt; tells_flow_4(&plan));
        assert!(rt; counts_of(plan) == (5, 5));
        assert!(rt; plan.flow(0).is_none());
        assert!(rt; plan.flow(6).is_none());
        let turn = plan.router((2, 1)).ok_or("no router 2 1")?;
        assert!(rt; turn.turns && turn.backlog.0 == 2 && turn.depth.0 == 3);
        let other = plan.router((0, 0)).ok_or("no router 0 0")?;
        assert!(rt; !other.turns && other.backlog.0 == 0 && other.depth.0 == 1);
        assert!(rt; plan.router((3, 0)).is_none());
        assert!(rt; plan.router((0, 3)).is_none());
        Ok(())
    }

    #[test]
    fn a_place_starts_empty(rt: HostRuntime) {
        let plan = Plan::empty();
        assert!(rt; plan.table().dimensions() == dimensions(2, 1, 2));
        assert!(rt; plan.table().flows().is_empty());
        assert!(rt; plan.flow(1).is_none());
        assert!(rt; plan.router((1, 1)).is_some());
        assert!(rt; plan.router((2, 0)).is_none());
    }

    // The plan of the five flows stands in a place, and a table is refused there.
    fn is_refused(tried: &Table, fault: Fault) -> bool {
        let mut plan = Plan::empty();
        plan.admit(&five()).is_ok() && plan.admit(tried) == Err(fault) && tells_flow_4(&plan)
    }

    #[test]
    fn ranges(rt: HostRuntime) {
        let cases = [
            (dimensions(1, 8, 400), 10),
            (dimensions(9, 0, 1), 10),
            (dimensions(3, 0, 1), 11),
            (dimensions(3, 8, 1025), 11),
            (dimensions(3, 0, 400), 12),
            (dimensions(3, 129, 400), 12),
        ];
        for (dimensions, number) in cases {
            assert!(rt; is_refused(&table(dimensions, &[]), refused(number, Place::Nowhere)));
        }
    }

    #[test]
    fn flows(rt: HostRuntime) {
        let good = flow((0, 0), (1, 1), 1, 1);
        let cases = [
            (flow((3, 0), (1, 1), 0, 0), 13),
            (flow((0, 0), (1, 3), 1, 1), 13),
            (flow((1, 1), (1, 1), 0, 0), 14),
            (flow((0, 0), (1, 1), 0, 0), 15),
            (flow((0, 0), (1, 1), 65, 1), 15),
            (flow((0, 0), (1, 1), 1, 0), 16),
            (flow((0, 0), (1, 1), 1, 401), 16),
        ];
        for (bad, number) in cases {
            let tried = table(dimensions(3, 8, 400), &[good, bad]);
            assert!(rt; is_refused(&tried, refused(number, Place::Flow(2))));
        }
    }

    fn ring(rate: u16, depth: u8) -> Table {
        let flows = [
            flow((0, 0), (1, 2), 1, rate),
            flow((0, 1), (1, 0), 1, rate),
            flow((0, 2), (1, 1), 1, rate),
        ];
        table(dimensions(3, depth, 100), &flows)
    }

    #[test]
    fn rings(rt: HostRuntime) {
        let mut plan = Plan::empty();
        assert!(rt; plan.admit(&ring(24, 10)).is_ok());
        assert!(rt; is_refused(&ring(24, 9), refused(20, Place::Router((1, 0)))));
        assert!(rt; is_refused(&ring(25, 10), refused(19, Place::Nowhere)));
        assert!(rt; is_refused(&ring(33, 10), refused(19, Place::Nowhere)));
        assert!(rt; is_refused(&ring(34, 10), refused(17, Place::Router((1, 0)))));
    }

    #[test]
    fn files(rt: HostRuntime) -> Result<(), Fail> {
        let fault = Fault {
            number: 1,
            layer: Layer::File,
            place: Place::Byte(0),
        };
        let mut plan = Plan::empty();
        let found = plan.load(b"").err().ok_or("an empty file is loaded")?;
        assert!(rt; found == PlanFault::File(fault));
        assert!(rt; Fault::from(found) == fault);
        let found = plan
            .load(b"\x04\0\x01\0\x01\x08\x90\x01\x02\0\x03\0\0\0")
            .err()
            .ok_or("a side of 1 is admitted")?;
        assert!(rt; found == PlanFault::Own(refused(10, Place::Nowhere)));
        Ok(())
    }
}
