// The lines about a plan, each put at the end of a text, as in `lines.rt`.
// `Joins` alone stands where a piece may be nothing.
// `small` says how long a piece is, so that a whole text is known to have room.
ghost use Rattle.std.specs.Prelude.{◌≡◌, ◌<◌, ◌≤◌, ◌++◌, length, decimal};
ghost use Rattle.text.specs.Clipped.{clipped, Joins};
ghost use Rattle.text.specs.Said.{said};
ghost use Rattle.table.specs.Content.{content};
ghost use Rattle.bounds.specs.Sums.{count, units_of};
ghost use Rattle.bounds.specs.Bounds.{side};
ghost use Rattle.listing.specs.Plans.{bounds_line, bounds_at, bounds_lines, queue_line, queue_at, queue_row, queue_lines, admitted_line, plan_text};

use crate::lines::{router_words, torus_line};
use plan::{FlowBounds, Plan, RouterBounds};
use text::Text;

// A line about the torus, one for each flow and for each router where a flow turns, and how many flows are admitted.
pub fn plan_text(plan: &Plan) -> Text
    ensures { said result ≡ plan_text (content plan.now.table) (units_of plan.now.bursts) }
{
    let mut text = Text::new();
    torus_line(&mut text, plan.table().dimensions());
    bounds_lines(&mut text, plan);
    queue_lines(&mut text, plan);
    admitted_line(&mut text, plan.table().flows().len());
    text
}

fn bounds_lines(text: &mut Text, plan: &Plan)
    ensures says { Joins (said text.old) (λ a. a ++ bounds_lines (content plan.now.table) (units_of plan.now.bursts)) (said text.new) }
    ensures small { length (bounds_lines (content plan.now.table) (units_of plan.now.bursts)) ≤ 5632 }
{
    // (by number: it is by its number that a plan tells a flow's bounds)
    for k in 0..plan.table().flows().len() {
        bounds_at(text, plan, k);
    }
}

// The line of flow k, which counts from 0; its number counts from 1.
fn bounds_at(text: &mut Text, plan: &Plan, k: usize)
    requires { k < count (content plan.now.table) }
    ensures says { said text.new ≡ clipped (said text.old ++ bounds_at (content plan.now.table) (units_of plan.now.bursts) k) }
    ensures small { length (bounds_at (content plan.now.table) (units_of plan.now.bursts) k) ≤ 88 }
{
    let bounds = plan.flow(k + 1).unwrap();
    bounds_line(text, k + 1, bounds);
}

fn bounds_line(text: &mut Text, number: usize, bounds: FlowBounds)
    ensures { said text.new ≡ clipped (said text.old ++ bounds_line number bounds) }
{
    text.labelled(b"flow ", number as u64);
    text.labelled(b" burst ", bounds.burst.0 as u64);
    two_words(text, b" wait ", bounds.wait.0, b" turn ", bounds.turn.0);
    two_words(
        text,
        b" hops ",
        bounds.hops.0,
        b" latency ",
        bounds.latency.0,
    );
    text.put(b"\n");
}

// A label and its number, and another label and its number.
fn two_words(text: &mut Text, first: &[u8], m: u64, second: &[u8], n: u64)
    ensures { Joins (said text.old) (λ a. a ++ first.now ++ decimal m ++ second.now ++ decimal n) (said text.new) }
{
    text.labelled(first, m);
    text.labelled(second, n);
}

// Row by row.
fn queue_lines(text: &mut Text, plan: &Plan)
    ensures says { Joins (said text.old) (λ a. a ++ queue_lines (content plan.now.table) (units_of plan.now.bursts)) (said text.new) }
    ensures small { length (queue_lines (content plan.now.table) (units_of plan.now.bursts)) ≤ 2112 }
{
    for y in 0..plan.table().dimensions().side {
        queue_row(text, plan, y);
    }
}

fn queue_row(text: &mut Text, plan: &Plan, y: u8)
    requires { y < side (content plan.now.table) }
    ensures says { Joins (said text.old) (λ a. a ++ queue_row (content plan.now.table) (units_of plan.now.bursts) y) (said text.new) }
    ensures small { length (queue_row (content plan.now.table) (units_of plan.now.bursts) y) ≤ 264 }
{
    for x in 0..plan.table().dimensions().side {
        queue_at(text, plan, (x, y));
    }
}

// The line of a router of the torus, or nothing where no flow turns.
fn queue_at(text: &mut Text, plan: &Plan, router: (u8, u8))
    requires column { router.0 < side (content plan.now.table) }
    requires row { router.1 < side (content plan.now.table) }
    ensures says { Joins (said text.old) (λ a. a ++ queue_at (content plan.now.table) (units_of plan.now.bursts) router) (said text.new) }
    ensures small { length (queue_at (content plan.now.table) (units_of plan.now.bursts) router) ≤ 33 }
{
    let bounds = plan.router(router).unwrap();
    if bounds.turns {
        queue_line(text, router, bounds);
    }
}

fn queue_line(text: &mut Text, router: (u8, u8), bounds: RouterBounds)
    ensures { said text.new ≡ clipped (said text.old ++ queue_line router bounds) }
{
    router_words(text, b"router ", router);
    text.labelled(b" backlog ", bounds.backlog.0 as u64);
    text.labelled(b" depth ", bounds.depth.0 as u64);
    text.put(b"\n");
}

fn admitted_line(text: &mut Text, count: usize)
    ensures { said text.new ≡ clipped (said text.old ++ admitted_line count) }
{
    text.labelled(b"admitted ", count as u64);
    text.put(b"\n");
}
