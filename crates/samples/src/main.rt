// The worked samples: what is proved of the rules stands in `statement`; what admission answers is printed here.
#![tactic(auto)]

use listing::{plan_text, refused_line};
use plan::Plan;
use quantity::{Depth, Frame, Packets, Rate};
use std::io;
use std::io::Write;
use table::{Dimensions, Flow, Table};

mod statement;

fn empty(side: u8, depth: u8, frame: u16) -> Table {
    Table::new(Dimensions {
        side,
        depth: Depth(depth),
        frame: Frame(frame),
    })
}

fn flow(source: (u8, u8), destination: (u8, u8), rate: u16) -> Flow {
    Flow {
        source,
        destination,
        burst: Packets(1),
        rate: Rate(rate),
    }
}

fn with(mut table: Table, flows: &[Flow]) -> Table {
    for flow in flows {
        table.add(*flow).ok();
    }
    table
}

fn five(rate: u16) -> Table {
    let flows = [
        flow((0, 1), (2, 1), 100),
        flow((1, 1), (2, 0), 100),
        flow((1, 1), (1, 2), 100),
        flow((2, 1), (2, 2), rate),
        flow((1, 2), (2, 1), 100),
    ];
    with(empty(3, 8, 400), &flows)
}

fn ring(rate: u16, depth: u8) -> Table {
    let flows = [
        flow((0, 0), (1, 2), rate),
        flow((0, 1), (1, 0), rate),
        flow((0, 2), (1, 1), rate),
    ];
    with(empty(3, depth, 100), &flows)
}

fn hop() -> Table {
    with(empty(2, 8, 4), &[flow((0, 0), (0, 1), 4)])
}

fn print_answer(rt: &HostRuntime, table: &Table) -> io::Result<()> {
    let mut plan = Plan::empty();
    let text = match plan.admit(table) {
        Ok(()) => plan_text(&plan),
        Err(fault) => refused_line(fault),
    };
    rt.stdout().write_all(text.as_bytes())
}

fn main(rt: HostRuntime) -> io::Result<()> {
    statement::samples_stand();
    let tables = [
        five(100),
        five(101),
        ring(24, 10),
        ring(24, 9),
        ring(25, 10),
        ring(33, 10),
        ring(34, 10),
        hop(),
    ];
    for table in tables {
        print_answer(&rt, &table)?;
    }
    Ok(())
}
