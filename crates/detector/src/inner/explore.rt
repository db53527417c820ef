// Algorithm 2 from its beginning until no pair waits.
ghost use Rattle.std.specs.Prelude.{◌≡◌};
ghost use Rattle.chart.specs.inner.Comparisons.{charts_of};
ghost use Rattle.graph.specs.Buffers.{buffers};
ghost use Rattle.graph.specs.inner.Tracks.{Covers};
ghost use Rattle.detector.specs.Turns.{begun, explored};
ghost use Rattle.detector.specs.inner.Tracked.{Follows};

use crate::inner::turns::{self, Tracked};
use chart::charts::Heads;
use chart::inner::comparison::Comparison;
use chart::inner::pairs::start_pair;
use chart::inner::rows::some_never;
use graph::Waiting;
use graph::inner::graphs::clear;
use records::{Marks, Sets, Targets};
use words::inner::members;

// The start pair alone is in the graph, and waits: it alone is to be looked at.
fn begin(
    heads: Heads,
    marks: &mut Marks,
    targets: &mut Targets,
    sets: &mut Sets,
    waiting: &mut Waiting,
    tracked: &mut Tracked,
)
    ensures follows { Follows tracked.new (buffers marks.new targets.new sets.new waiting.new) }
    ensures waiting_after { buffers marks.new targets.new sets.new waiting.new ≡ begun heads }
{
    let first = start_pair(heads);
    clear(marks, targets, sets, waiting);
    marks[first] = 1;
    waiting[first] = 1;
    tracked.waits = [0; 65];
    tracked.seen = [0; 64];
    members::list(&mut tracked.waits, first);
    members::add(&mut tracked.seen, first);
}

// Takes the lowest waiting pair up, as long as one waits. Afterwards `tracked.seen` has whoever came into the graph;
// what it had before has no effect. It is lent, and not answered, so that it lies on the stack once.
pub fn explore(
    charts: &Comparison<'_>,
    marks: &mut Marks,
    targets: &mut Targets,
    sets: &mut Sets,
    waiting: &mut Waiting,
    tracked: &mut Tracked,
)
    ensures covers { Covers tracked.new.seen (buffers marks.new targets.new sets.new waiting.new) }
    ensures waiting_after { buffers marks.new targets.new sets.new waiting.new
        ≡ explored (charts_of charts.now) }
{
    begin(charts.heads, marks, targets, sets, waiting, tracked);
    let any_never = some_never(charts.new_rows);
    while let Some(n) = turns::lowest(&mut tracked.waits, &*waiting) {
        let skips = turns::to_skip(
            charts.old_rows,
            charts.new_rows,
            &charts.index,
            n,
            any_never,
        );
        turns::turn(charts, marks, targets, sets, waiting, tracked, n, skips);
    }
}
