// Lines of text about a table, about a plan, and about a fault.
#![tactic(auto)]

ghost use Rattle.std.specs.Prelude.{◌≤◌, length};
ghost use Rattle.text.specs.Said.{said};

mod answer;
mod lines;
mod plans;
mod showing;

pub use answer::list;
pub use lines::{refused_line, table_text};
pub use plans::plan_text;
pub use showing::show;

#[cfg(test)]
mod tests {
    use super::*;
    use plan::Plan;
    use quantity::{Depth, Frame, Packets, Rate};
    use std::test::Fail;
    use table::{Dimensions, Fault, Flow, Layer, Place, Table};
    use text::Text;

    // The most bytes that a text has; a reference to it tells so with no call.
    fn most(text: &Text) -> usize
        ensures { length (said text.now) ≤ result }
    {
        8192
    }

    // The table that the first listings are about.
    fn five_flows() -> Result<Table, Fail> {
        let ends = [
            ((0, 1), (2, 1)),
            ((1, 1), (2, 0)),
            ((1, 1), (1, 2)),
            ((2, 1), (2, 2)),
            ((1, 2), (2, 1)),
        ];
        let mut table = Table::new(Dimensions {
            side: 3,
            depth: Depth(8),
            frame: Frame(400),
        });
        for (source, destination) in ends {
            let flow = Flow {
                source,
                destination,
                burst: Packets(1),
                rate: Rate(100),
            };
            table.add(flow).ok().ok_or("full")?;
        }
        Ok(table)
    }

    #[test]
    fn a_table(rt: HostRuntime) -> Result<(), Fail> {
        let text = table_text(&five_flows()?);
        assert!(rt;
            text.as_bytes()
                == b"torus 3 depth 8 frame 400
flow 1 from 0 1 to 2 1 burst 1 rate 100
flow 2 from 1 1 to 2 0 burst 1 rate 100
flow 3 from 1 1 to 1 2 burst 1 rate 100
flow 4 from 2 1 to 2 2 burst 1 rate 100
flow 5 from 1 2 to 2 1 burst 1 rate 100
flows 5
"
                    .as_slice()
        );
        Ok(())
    }

    #[test]
    fn a_plan(rt: HostRuntime) -> Result<(), Fail> {
        let mut plan = Plan::empty();
        plan.admit(&five_flows()?).ok().ok_or("refused")?;
        let text = plan_text(&plan);
        assert!(rt;
            text.as_bytes()
                == b"torus 3 depth 8 frame 400
flow 1 burst 660 wait 0 turn 6 hops 3 latency 9
flow 2 burst 660 wait 3 turn 6 hops 4 latency 13
flow 3 burst 300 wait 1 turn 0 hops 2 latency 3
flow 4 burst 300 wait 21 turn 0 hops 2 latency 23
flow 5 burst 780 wait 0 turn 7 hops 4 latency 11
router 2 1 backlog 2 depth 3
router 2 2 backlog 1 depth 2
admitted 5
"
                    .as_slice()
        );
        Ok(())
    }

    #[test]
    fn a_plan_without_flows(rt: HostRuntime) {
        let text = plan_text(&Plan::empty());
        assert!(rt; text.as_bytes().len() < most(&text));
        assert!(rt; text.as_bytes() == b"torus 2 depth 1 frame 2\nadmitted 0\n".as_slice());
    }

    #[test]
    fn places(rt: HostRuntime) {
        let mut place = *b"..................";
        assert!(rt; list(b"", &mut place).ok() == Some(17));
        assert!(rt; &place == b"refused 1 byte 0\n.");
        let mut short = *b"................";
        let fault = Fault {
            number: 21,
            layer: Layer::Plan,
            place: Place::Nowhere,
        };
        assert!(rt; list(b"", &mut short).err() == Some(fault));
        assert!(rt; &short == b"................");
    }

    #[test]
    fn refusals(rt: HostRuntime) {
        let cases: [(u8, Place, &[u8]); 4] = [
            (1, Place::Byte(0), b"refused 1 byte 0\n"),
            (4, Place::Flow(65), b"refused 4 flow 65\n"),
            (20, Place::Router((1, 0)), b"refused 20 router 1 0\n"),
            (7, Place::Nowhere, b"refused 7\n"),
        ];
        for (number, place, line) in cases {
            let fault = Fault {
                number,
                layer: Layer::File,
                place,
            };
            assert!(rt; refused_line(fault).as_bytes() == line);
        }
    }
}
