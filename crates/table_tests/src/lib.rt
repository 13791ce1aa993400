// Examples of quantities, and of tables built, written and read.

#![tactic(auto)]

ghost use Rattle.std.specs.Prelude.{◌≡◌, ◌≤◌, Decides, length, not};
ghost use Rattle.table.specs.Content.{content};
ghost use Rattle.table.specs.Equal.{same_flow};

#[cfg(test)]
mod tests {
    use quantity::{Depth, Frame, Packets, Rate, Units};
    use std::test::Fail;
    use table::{Dimensions, Fault, Flow, Layer, Place, Table};

    const DIMENSIONS: Dimensions = Dimensions {
        side: 3,
        depth: Depth(8),
        frame: Frame(400),
    };

    const FLOW: Flow = Flow {
        source: (1, 2),
        destination: (3, 4),
        burst: Packets(258),
        rate: Rate(772),
    };

    // The file of the table with this one flow.
    const FILE: &[u8] =
        b"\x04\0\x01\0\x03\x08\x90\x01\x08\0\x02\0\x01\x02\x03\x04\x02\x01\x04\x03\x02\0\x03\0\x01\0";

    fn one_flow() -> Result<Table, Fail> {
        let mut table = Table::new(DIMENSIONS);
        table.add(FLOW).ok().ok_or("full")?;
        Ok(table)
    }

    // The derived `==` of flows compares part by part, and is true exactly of equal ones.
    fn same(f: &Flow, g: &Flow) -> bool
        ensures parts { result ≡ same_flow f.now g.now }
        ensures same { Decides result (f.now ≡ g.now) }
    {
        f == g
    }

    fn differ(f: &Flow, g: &Flow) -> bool
        ensures { result ≡ not (same_flow f.now g.now) }
    {
        f != g
    }

    #[test]
    fn flows_that_differ(rt: HostRuntime) {
        let burst = Flow {
            burst: Packets(257),
            ..FLOW
        };
        let rate = Flow {
            rate: Rate(771),
            ..FLOW
        };
        assert!(rt; same(&FLOW, &FLOW));
        assert!(rt; !same(&FLOW, &burst));
        assert!(rt; !same(&FLOW, &rate));
        assert!(rt; differ(&FLOW, &burst));
        assert!(rt; !differ(&FLOW, &FLOW));
    }

    #[test]
    fn conversions(rt: HostRuntime) {
        assert!(rt; Packets(3).in_units(Frame(400)) == Units(1200));
        assert!(rt; Packets(65535).in_units(Frame(65535)) == Units(4294836225));
        assert!(rt; Units::from(Frame(400)) == Units(400));
        assert!(rt; Units::from(Rate(100)) == Units(100));
        assert!(rt; Packets::from(Depth(8)).0 == 8);
    }

    // The most flows that a table has; a reference to it tells so with no call.
    fn most(table: &Table) -> usize
        ensures { length (content table.now).flows ≤ result }
    {
        64
    }

    #[test]
    fn a_65th_flow_is_refused(rt: HostRuntime) -> Result<(), Fail> {
        let mut table = Table::new(DIMENSIONS);
        for _ in 0..64 {
            table.add(FLOW).ok().ok_or("full too early")?;
        }
        let fault = table.add(FLOW).err().ok_or("not refused")?;
        assert!(rt;
            fault
                == Fault {
                    number: 4,
                    layer: Layer::File,
                    place: Place::Flow(65),
                }
        );
        assert!(rt; table.flows().len() == 64);
        assert!(rt; table.flows().len() == most(&table));
        Ok(())
    }

    #[test]
    fn written_bytes(rt: HostRuntime) -> Result<(), Fail> {
        let table = one_flow()?;
        let mut place = [170u8; 30];
        assert!(rt; table.file_length() == 26);
        assert!(rt; table.write(&mut place).ok().ok_or("refused")? == 26);
        assert!(rt; &place[0..26] == FILE);
        assert!(rt; &place[26..30] == [170u8; 4].as_slice());
        Ok(())
    }

    #[test]
    fn a_short_place_stays(rt: HostRuntime) -> Result<(), Fail> {
        let table = one_flow()?;
        let mut place = [170u8; 25];
        let fault = table.write(&mut place).err().ok_or("not refused")?;
        assert!(rt;
            fault
                == Fault {
                    number: 7,
                    layer: Layer::File,
                    place: Place::Nowhere,
                }
        );
        assert!(rt; place == [170u8; 25]);
        Ok(())
    }

    #[test]
    fn read_back(rt: HostRuntime) -> Result<(), Fail> {
        let table = Table::read(FILE).ok().ok_or("refused")?;
        assert!(rt; table.dimensions() == DIMENSIONS);
        assert!(rt; table.flows() == [FLOW].as_slice());
        assert!(rt; table == one_flow()?);
        assert!(rt; table != Table::new(DIMENSIONS));
        Ok(())
    }

    // What stands at the front of a file, and the refusal's number and byte.
    #[test]
    fn refused_files(rt: HostRuntime) -> Result<(), Fail> {
        let cases: [(&[u8], u8, usize); 7] = [
            (b"", 1, 0),
            (b"\x04\0\x02\0", 2, 0),
            (b"\x05\0\x01\0", 3, 0),
            (b"\x04\0\x01\0\x03", 1, 0),
            (b"\x04\0\x01\0\x03\x08\x90\x01\x04\0\x01\0", 2, 8),
            (b"\x04\0\x01\0\x03\x08\x90\x01\x02\0\x03\0\x01\0", 5, 8),
            (b"\x04\0\x01\0\x03\x08\x90\x01\x02\0\x03\0\0\0\x07", 6, 14),
        ];
        for (bytes, number, at) in cases {
            let fault = Table::read(bytes).err().ok_or("not refused")?;
            assert!(rt;
                fault
                    == Fault {
                        number,
                        layer: Layer::File,
                        place: Place::Byte(at),
                    }
            );
        }
        Ok(())
    }
}
