// Building a table, and what it tells.
ghost use Rattle.std.specs.Prelude.{◌≡◌, ◌≤◌, [], length};
ghost use Rattle.table.specs.Content.{content, Added};

use super::Table;
use crate::fault::Fault;
use crate::flow::{Dimensions, Flow, NO_FLOW};
use crate::refusal::Refusal;

impl Table {
    // A table without flows.
    pub fn new(dimensions: Dimensions) -> Table
        ensures { content result ≡ record { dimensions = dimensions; flows = [] } }
    {
        Table {
            dimensions,
            count: 0,
            flows: [NO_FLOW; 64],
        }
    }

    pub fn dimensions(&self) -> Dimensions
        ensures { result ≡ (content self.now).dimensions }
    {
        self.dimensions
    }

    // The flows in the order in which they were added: flow 1 first.
    pub fn flows(&self) -> &[Flow]
        ensures value { result.now ≡ (content self.now).flows }
        ensures few { length (content self.now).flows ≤ 64 }
    {
        &self.flows[..self.count]
    }

    // One flow more at the end; the 65th is refused.
    pub fn add(&mut self, flow: Flow) -> Result<(), Fault>
        ensures { Added self.old flow self.new result }
    {
        if self.count == self.flows.len() {
            return Err(Refusal::Full.into());
        }
        self.flows[self.count] = flow;
        self.count += 1;
        Ok(())
    }
}
