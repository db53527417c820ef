// Algorithm 2: the rows of a waiting pair, and the turns of a build.
ghost use Rattle.std.specs.Prelude.{◌≡◌, ◌<◌, Some, get_or};
ghost use Rattle.chart.specs.Charts.{leaving};
ghost use Rattle.chart.specs.Places.{new_of};
ghost use Rattle.chart.specs.inner.Ascending.{Ascending};
ghost use Rattle.chart.specs.inner.Comparisons.{charts_of};
ghost use Rattle.chart.specs.inner.Index.{Indexed};
ghost use Rattle.chart.specs.inner.NoneNever.{NoneNever};
ghost use Rattle.align.specs.declared.spots.Spot.{Spot};
ghost use Rattle.graph.specs.Buffers.{buffers};
ghost use Rattle.graph.specs.inner.Tracks.{Lists};
ghost use Rattle.detector.specs.Turns.{lowest, set_now, arrived, processed, row_done, taken};
ghost use Rattle.detector.specs.inner.Skipped.{NeverIf, Skipped};
ghost use Rattle.detector.specs.inner.Lowest.{LowestOf};
ghost use Rattle.detector.specs.inner.Tracked.{Follows};

use align::inner::step::step;
use align::spots::Spot;
use chart::inner::comparison::Comparison;
use chart::inner::pairs::{kept, new_of, old_of, pair};
use chart::inner::rows::{can_be_taken, new_to, rows_of};
use chart::places::{NewPlace, OldPlace, Place};
use graph::Waiting;
use graph::inner::graphs;
use records::{Marks, Sets, Targets};
use sets::inner::bits::without;
use words::inner::members::{self, Bits, UPWARDS};
use words::{PairList, Pairs};

// Where to look, so that nobody looks at every pair: a list of whoever waits, and whoever was seen in the graph.
#[derive(Drop)]
pub struct Tracked {
    pub waits: PairList,
    pub seen: Pairs,
}

// The lowest pair of old place p that waits. Bits of its word that wait no more are met once, and dropped.
fn lowest_of(waits: &mut PairList, waiting: &Waiting, p: usize) -> Option<usize>
    requires { (p < 64) × Lists waits.old waiting.now }
    ensures lowest_of { LowestOf waiting.now p result × Lists waits.new waiting.now }
    ensures waits_unchanged { get_or waits.new 64 0 ≡ get_or waits.old 64 0 }
{
    for q in Bits::<UPWARDS>(waits[p]) {
        let n = 64 * p + q;
        if waiting[n] != 0 {
            return Some(n);
        }
        members::remove(waits, n);
    }
    None
}

// The lowest pair that waits. Only the old places that the list's last word names may have one; those that have none
// are met once, and dropped.
pub fn lowest(waits: &mut PairList, waiting: &Waiting) -> Option<usize>
    requires { Lists waits.old waiting.now }
    ensures { (result ≡ lowest waiting.now) × Lists waits.new waiting.now }
{
    for p in Bits::<UPWARDS>(waits[64]) {
        if let Some(n) = lowest_of(waits, waiting, p) {
            return Some(n);
        }
        waits[64] = without(waits[64], p as u32);
    }
    None
}

// Row r of pair n leads to new place q by a step that came to h.
fn arrive(
    alarm: OldPlace,
    marks: &mut Marks,
    targets: &mut Targets,
    sets: &mut Sets,
    waiting: &mut Waiting,
    tracked: &mut Tracked,
    n: usize,
    r: usize,
    q: NewPlace,
    h: Spot,
)
    requires n_bound { (n < 4096) × (r < 2) × (q.0 < 64) × (h.place.0 < 64) }
    requires follows { Follows tracked.old (buffers marks.old targets.old sets.old waiting.old) }
    ensures follows_2 { Follows tracked.new (buffers marks.new targets.new sets.new waiting.new) }
    ensures waiting_after { buffers marks.new targets.new sets.new waiting.new
        ≡ arrived alarm.0 (buffers marks.old targets.old sets.old waiting.old) n r q h }
{
    let node = kept(q);
    if graphs::is_marked(&*marks, node) {
        graphs::aim(&*marks, targets, n, r, node);
        return;
    }
    let at = pair(h.place, q);
    graphs::join(
        alarm,
        marks,
        sets,
        waiting,
        &mut tracked.waits,
        &mut tracked.seen,
        at,
        h.set,
    );
    graphs::aim(&*marks, targets, n, r, at);
}

// Row r of pair n leads to new place q, by a step that came to a spot or failed.
fn process(
    alarm: OldPlace,
    marks: &mut Marks,
    targets: &mut Targets,
    sets: &mut Sets,
    waiting: &mut Waiting,
    tracked: &mut Tracked,
    n: usize,
    r: usize,
    q: NewPlace,
    came: Option<Spot>,
)
    requires n_bound { (n < 4096) × (r < 2) × (q.0 < 64) }
    requires place_bound { (h : Spot) → came ≡ Some h → h.place.0 < 64 }
    requires follows { Follows tracked.old (buffers marks.old targets.old sets.old waiting.old) }
    ensures follows_2 { Follows tracked.new (buffers marks.new targets.new sets.new waiting.new) }
    ensures waiting_after { buffers marks.new targets.new sets.new waiting.new
        ≡ processed alarm.0 (buffers marks.old targets.old sets.old waiting.old) n r q came }
{
    match came {
        Some(h) => arrive(alarm, marks, targets, sets, waiting, tracked, n, r, q, h),
        None => {
            graphs::keep(marks, targets, sets, waiting, &tracked.seen, q);
            graphs::aim(&*marks, targets, n, r, kept(q));
        }
    }
}

// Which of the rows of pair n never hold, of those that are there. Where no row of the new chart does, as `any_never`
// says, none is looked at.
pub fn to_skip(
    old_rows: &[u32],
    new_rows: &[u32],
    index: &[u8; 130],
    n: usize,
    any_never: bool,
) -> [bool; 2]
    requires indexed { Indexed old_rows.now new_rows.now index.now × Ascending new_rows.now }
    requires n_bound { (n < 4096) × NoneNever any_never new_rows.now }
    ensures { Skipped result (leaving new_rows.now (new_of n).0) }
{
    if !any_never {
        return [false; 2];
    }
    let part = rows_of(old_rows, new_rows, index, Place::New(new_of(n)));
    [!can_be_taken(part, 0), !can_be_taken(part, 1)]
}

// Row r of pair n, if there is such a row and it can be taken, under the set v.
fn row(
    charts: &Comparison<'_>,
    marks: &mut Marks,
    targets: &mut Targets,
    sets: &mut Sets,
    waiting: &mut Waiting,
    tracked: &mut Tracked,
    n: usize,
    v: u64,
    r: usize,
    skip: bool,
)
    requires n_bound { (n < 4096) × (r < 2) × NeverIf skip (leaving charts.now.new_rows.now (new_of n).0) r }
    requires follows { Follows tracked.old (buffers marks.old targets.old sets.old waiting.old) }
    ensures follows_2 { Follows tracked.new (buffers marks.new targets.new sets.new waiting.new) }
    ensures waiting_after { buffers marks.new targets.new sets.new waiting.new
        ≡ row_done (charts_of charts.now) (buffers marks.old targets.old sets.old waiting.old) n v r }
{
    let part = charts.new_part(new_of(n));
    if (r < part.len() / 6) & !skip {
        let came = step(charts, old_of(n), v, part, r);
        process(
            charts.heads.old.alarm,
            marks,
            targets,
            sets,
            waiting,
            tracked,
            n,
            r,
            new_to(part, r),
            came,
        );
    }
}

// The set of pair n: its own, or the one it had where it has left the graph.
fn set_now(marks: &Marks, sets: &Sets, n: usize, v: u64) -> u64
    requires { n < 4096 }
    ensures { result ≡ set_now marks.now sets.now n v }
{
    if marks[n] != 0 {
        return sets[n];
    }
    v
}

// Takes pair n up. Which of its rows never hold was asked before: the compiler then has both rows in place.
pub fn turn(
    charts: &Comparison<'_>,
    marks: &mut Marks,
    targets: &mut Targets,
    sets: &mut Sets,
    waiting: &mut Waiting,
    tracked: &mut Tracked,
    n: usize,
    skips: [bool; 2],
)
    requires n_bound { (n < 4096) × Skipped skips (leaving charts.now.new_rows.now (new_of n).0) }
    requires follows { Follows tracked.old (buffers marks.old targets.old sets.old waiting.old) }
    ensures follows_2 { Follows tracked.new (buffers marks.new targets.new sets.new waiting.new) }
    ensures waiting_after { buffers marks.new targets.new sets.new waiting.new
        ≡ taken (charts_of charts.now) (buffers marks.old targets.old sets.old waiting.old) n }
{
    let mut v = sets[n];
    waiting[n] = 0;
    members::remove(&mut tracked.waits, n);
    for r in 0..2 {
        v = set_now(&*marks, &*sets, n, v);
        row(
            charts, marks, targets, sets, waiting, tracked, n, v, r, skips[r],
        );
    }
}
