// Writing a table file.
ghost use Rattle.std.specs.Prelude.{◌≡◌, ◌+◌, ◌*◌, ◌≤◌, length};
ghost use Rattle.std.specs.List.{flat_map};
ghost use Rattle.table.specs.Content.{content};
ghost use Rattle.table.specs.Format.{head_record, flow_record, end_record, front};
ghost use Rattle.table.specs.Writing.{put_at, file_of, Wrote, OwnFile, OwnContent, ReadsBack};

use crate::fault::Fault;
use crate::flow::{Dimensions, Flow};
use crate::model::Table;
use crate::refusal::Refusal;

// Puts `part` into the place from `at` on.
fn put(place: &mut [u8], at: usize, part: &[u8])
    requires { at + length part.now ≤ length place.old }
    ensures { place.new ≡ put_at at part.now place.old }
{
    place[at..at + part.len()].copy_from_slice(part);
}

fn head_record(dimensions: Dimensions) -> [u8; 8]
    ensures { result ≡ head_record dimensions }
{
    let frame = dimensions.frame.0.to_le_bytes();
    [
        4,
        0,
        1,
        0,
        dimensions.side,
        dimensions.depth.0,
        frame[0],
        frame[1],
    ]
}

fn flow_record(flow: Flow) -> [u8; 12]
    ensures { result ≡ flow_record flow }
{
    let burst = flow.burst.0.to_le_bytes();
    let rate = flow.rate.0.to_le_bytes();
    [
        8,
        0,
        2,
        0,
        flow.source.0,
        flow.source.1,
        flow.destination.0,
        flow.destination.1,
        burst[0],
        burst[1],
        rate[0],
        rate[1],
    ]
}

fn end_record(count: u16) -> [u8; 6]
    ensures { result ≡ end_record count }
{
    let count = count.to_le_bytes();
    [2, 0, 3, 0, count[0], count[1]]
}

// The flow records, from byte 8 on.
// (by index: of bytes written through `chunks_exact_mut` a proof knows only how many there are)
fn put_flows(place: &mut [u8], flows: &[Flow])
    requires { 8 + 12 * length flows.now ≤ length place.old }
    ensures { place.new ≡ put_at 8 (flat_map flow_record flows.now) place.old }
{
    for (i, flow) in flows.iter().enumerate() {
        put(place, 8 + 12 * i, &flow_record(*flow));
    }
}

impl Table {
    // The byte of the file at which the end record stands, behind the head and the flows.
    pub(crate) fn end(&self) -> usize
        ensures place { result ≡ length (front (content self.now)) }
        ensures small { result ≤ 776 }
    {
        8 + 12 * self.flows().len()
    }

    // How many bytes the table's file has.
    #[tactic(auto, using(crate::proofs::Places::length_encode, crate::proofs::Prefixes::length_front))]
    pub fn file_length(&self) -> usize
        ensures length { result ≡ length (file_of self.now) }
        ensures small { result ≤ 782 }
    {
        self.end() + 6
    }

    // Writes the table's file to the front of the place, and answers its length.
    #[tactic(auto, using(crate::proofs::Places::length_encode, crate::proofs::Laws::own_file, crate::proofs::Laws::own_content))]
    pub fn write(&self, place: &mut [u8]) -> Result<usize, Fault>
        ensures wrote { Wrote self.now place.old place.new result }
        ensures few { length (content self.now).flows ≤ 64 }
        ensures own { OwnFile self.now }
        ensures content { OwnContent self.now }
        ensures back { ReadsBack self.now place.new result }
    {
        let flows = self.flows();
        let size = self.file_length();
        if place.len() < size {
            return Err(Refusal::Short.into());
        }
        put(place, 0, &head_record(self.dimensions()));
        put_flows(place, flows);
        put(place, self.end(), &end_record(flows.len() as u16));
        Ok(size)
    }
}
