// The listing of a table file, to a caller's place.
ghost use Rattle.std.specs.Prelude.{◌≤◌, length};
ghost use Rattle.text.specs.Said.{said};
ghost use Rattle.listing.specs.Listed.{Listed, Given, Lists};

use crate::lines::refused_line;
use crate::plans::plan_text;
use plan::Plan;
use table::{Fault, Layer, Place};
use text::Text;

// The listing of the bytes of a table file goes to the front of the place, and its length is the answer;
// a place that is shorter stays as it was.
pub fn list(bytes: &[u8], place: &mut [u8]) -> Result<usize, Fault>
    ensures { Lists bytes.now place.old place.new result }
{
    let text = listing(bytes);
    give(&text, place)
}

// The text of the plan of the table whose file the bytes are, or the line that says why they are refused.
fn listing(bytes: &[u8]) -> Text
    ensures { Listed bytes.now (said result) }
{
    let mut plan = Plan::empty();
    match plan.load(bytes) {
        Ok(()) => plan_text(&plan),
        Err(fault) => refused_line(fault.into()),
    }
}

// Nothing is written unless the whole text fits.
// (the fault stands here: an enum for this refusal alone would say no more)
fn give(text: &Text, place: &mut [u8]) -> Result<usize, Fault>
    ensures given { Given (said text.now) place.old place.new result }
    ensures small { length (said text.now) ≤ 8192 }
{
    let bytes = text.as_bytes();
    let len = bytes.len();
    if place.len() < len {
        return Err(Fault {
            number: 21,
            layer: Layer::Plan,
            place: Place::Nowhere,
        });
    }
    place[0..len].copy_from_slice(bytes);
    Ok(len)
}
