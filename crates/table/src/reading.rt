// Reading a table file.
ghost use Rattle.std.specs.Prelude.{◌≤◌, length};
ghost use Rattle.table.specs.declared.record.Kind.TheVariants.{End};
ghost use Rattle.table.specs.Reading.{Answers, Alone, Settled, Whole};
ghost use Rattle.table.specs.Inspecting.{Pushed, Ended, Scanned};
ghost use Rattle.table.specs.Writing.{WritesBack};

use crate::fault::Fault;
use crate::model::Table;
use crate::record::{Kind, Rest};
use crate::refusal::Refusal;

// One flow more, of the flow record at the front.
fn push(table: &mut Table, rest: &Rest) -> Result<(), Refusal>
    requires { 12 ≤ length rest.now.bytes.now }
    ensures { Pushed table.old rest.now.at rest.now.bytes.now table.new result }
{
    table.add(rest.flow()).or(Err(Refusal::Excess(rest.at)))
}

// The table as it is, where the end record at the front has its count and nothing follows.
fn finish(table: Table, rest: &Rest) -> Result<Table, Refusal>
    requires whole { Whole rest.now.at rest.now.bytes.now End }
    requires fits { rest.now.at ≤ 1000 }
    ensures { Ended table rest.now.at rest.now.bytes.now result }
{
    if rest.word(4) as usize != table.flows().len() {
        return Err(Refusal::Miscount(rest.at));
    }
    if rest.bytes.len() > 6 {
        return Err(Refusal::Trailing(rest.at + 6));
    }
    Ok(table)
}

// Record by record, up to the first that is not as it should be.
fn scan(bytes: &[u8]) -> Result<Table, Refusal>
    ensures { Scanned bytes.now result }
{
    let head = Rest::new(bytes, 0);
    head.inspect()?;
    let mut table = Table::new(head.dimensions());
    loop {
        let rest = Rest::new(bytes, table.end());
        match rest.inspect()? {
            // (a head is due at byte 0 alone)
            Kind::Head => unreachable!(),
            Kind::Flow => push(&mut table, &rest)?,
            Kind::End => return finish(table, &rest),
        }
    }
}

impl Table {
    // The table whose file the bytes are, or the fault of the first record that is not as it should be.
    #[tactic(auto, using(crate::proofs::Longer::settled, crate::proofs::Laws::writes_back))]
    pub fn read(bytes: &[u8]) -> Result<Table, Fault>
        ensures answer { Answers bytes.now result }
        ensures alone { Alone bytes.now result }
        ensures settled { Settled bytes.now result }
        ensures back { WritesBack bytes.now result }
    {
        Ok(scan(bytes)?)
    }
}
