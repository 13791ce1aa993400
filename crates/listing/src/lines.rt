// Each line is put at the end of a text.
// (no `Display`: `write!` may answer Err as far as its contract says, and a text about a table cannot fail)
// `Joins` alone stands where a piece may be nothing.
// `small` says how large the numbers of a line are, so that a whole text is known to have room.
ghost use Rattle.std.specs.Prelude.{◌≡◌, ℕ, ◌<◌, ◌++◌, length, codes, decimal, slice_index_or};
ghost use Rattle.text.specs.Clipped.{clipped, Joins};
ghost use Rattle.text.specs.Said.{said};
ghost use Rattle.table.specs.Blank.{blank};
ghost use Rattle.table.specs.Content.{content};
ghost use Rattle.listing.specs.Small.{DimensionsSmall, FlowSmall, PlaceSmall};
ghost use Rattle.listing.specs.Lines.{router_words, torus_line, flow_line, flow_lines, count_line, table_text, place_words, refused_line};

use table::{Dimensions, Fault, Flow, Place, Table};
use text::Text;

// A line about the torus, one for each flow, and how many flows there are.
pub fn table_text(table: &Table) -> Text
    ensures { said result ≡ table_text (content table.now) }
{
    let mut text = Text::new();
    torus_line(&mut text, table.dimensions());
    flow_lines(&mut text, table.flows());
    count_line(&mut text, table.flows().len());
    text
}

// The refusal's number, and the place at fault if it has one.
pub fn refused_line(fault: Fault) -> Text
    ensures { said result ≡ refused_line fault }
{
    let mut text = Text::new();
    text.labelled(b"refused ", fault.number as u64);
    place_words(&mut text, fault.place);
    text.put(b"\n");
    text
}

pub(crate) fn torus_line(text: &mut Text, dimensions: Dimensions)
    ensures says { said text.new ≡ clipped (said text.old ++ torus_line dimensions) }
    ensures small { DimensionsSmall dimensions }
{
    text.labelled(b"torus ", dimensions.side as u64);
    text.labelled(b" depth ", dimensions.depth.0 as u64);
    text.labelled(b" frame ", dimensions.frame.0 as u64);
    text.put(b"\n");
}

// Flows are numbered from 1.
fn flow_lines(text: &mut Text, flows: &[Flow])
    ensures says { Joins (said text.old) (λ a. a ++ flow_lines 1 flows.now) (said text.new) }
    ensures small { (k : ℕ) → k < length flows.now → FlowSmall (slice_index_or flows.now k blank) }
{
    for (i, flow) in flows.iter().enumerate() {
        flow_line(text, i + 1, *flow);
    }
}

fn flow_line(text: &mut Text, number: usize, flow: Flow)
    ensures says { said text.new ≡ clipped (said text.old ++ flow_line number flow) }
    ensures small { FlowSmall flow }
{
    text.labelled(b"flow ", number as u64);
    router_words(text, b" from ", flow.source);
    router_words(text, b" to ", flow.destination);
    bucket_words(text, flow);
    text.put(b"\n");
}

// A label, and then the router's column and row.
pub(crate) fn router_words(text: &mut Text, label: &[u8], router: (u8, u8))
    ensures says { said text.new ≡ clipped (said text.old ++ router_words label.now router) }
    ensures joins { Joins (said text.old) (λ a. router_words (a ++ label.now) router) (said text.new) }
{
    text.labelled(label, router.0 as u64);
    text.labelled(b" ", router.1 as u64);
}

// The end of a flow's line: its token bucket.
fn bucket_words(text: &mut Text, flow: Flow)
    ensures { Joins (said text.old) (λ a. a ++ codes " burst " ++ decimal flow.burst.0 ++ codes " rate " ++ decimal flow.rate.0) (said text.new) }
{
    text.labelled(b" burst ", flow.burst.0 as u64);
    text.labelled(b" rate ", flow.rate.0 as u64);
}

fn count_line(text: &mut Text, count: usize)
    ensures { said text.new ≡ clipped (said text.old ++ count_line count) }
{
    text.labelled(b"flows ", count as u64);
    text.put(b"\n");
}

fn place_words(text: &mut Text, place: Place)
    ensures says { Joins (said text.old) (λ a. a ++ place_words place) (said text.new) }
    ensures small { PlaceSmall place }
{
    match place {
        Place::Byte(n) => text.labelled(b" byte ", n as u64),
        Place::Flow(n) => text.labelled(b" flow ", n as u64),
        Place::Router(router) => router_words(text, b" router ", router),
        Place::Nowhere => {}
    }
}
