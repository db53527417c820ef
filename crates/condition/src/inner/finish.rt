// The end of a build: targets of kept places, the lone kept start, and the marks of Algorithm 1.
ghost use Rattle.std.specs.Prelude.{◌≡◌, false, map, ℕ, ◌+◌, ◌*◌, ◌≤◌, ◌<◌, length, get_or, take};
ghost use Rattle.base.specs.Walks.{count};
ghost use Rattle.sets.specs.Sets.{bit};
ghost use Rattle.records.specs.Records.{index};
ghost use Rattle.chart.specs.Places.{start_pair};
ghost use Rattle.words.specs.inner.Words.{Member};
ghost use Rattle.graph.specs.Buffers.{buffers};
ghost use Rattle.graph.specs.inner.Tracks.{Covers};
ghost use Rattle.marker.specs.inner.Spans.{remade};
ghost use Rattle.condition.specs.Builds.{redirected, alone, lone, finished, start_of, summary};

use crate::Summary;
use align::inner::step::fair;
use chart::charts::Heads;
use chart::inner::pairs::{kept, new_of, old_of, start_kept, start_pair};
use graph::Waiting;
use graph::inner::graphs::{clear, is_marked};
use marker::inner::marks::rank;
use records::inner::marks::blank;
use records::{Marks, Sets, Targets};
use words::Pairs;
use words::inner::members::{Bits, UPWARDS};

// A target whose new place is kept becomes that kept node. Both are asked at once, so that there is one branch alone.
fn redirect(marks: &Marks, x: u16) -> u16
    ensures { result ≡ redirected marks.now x }
{
    let node = kept(new_of(x as usize));
    if is_marked(marks, node) & (x < 4096) {
        return node as u16;
    }
    x
}

// Both targets of the pairs with old place p that are bits of the word: no other has one.
fn redirect_word(marks: &Marks, targets: &mut Targets, p: usize, word: u64)
    requires p_bound { p < 64 }
    requires by_index { (i r : ℕ) → i < 64 → r < 2 → (get_or targets.old (index (64 * p + i) r) 0 ≡ 65535 → ⊥)
        → bit word i ≡ 1 }
    ensures { targets.new ≡ remade (128 * p) (128 * p + 128) (redirected marks.now) targets.old }
{
    for q in Bits::<UPWARDS>(word) {
        let at = 128 * p + 2 * q;
        targets[at] = redirect(marks, targets[at]);
        targets[at + 1] = redirect(marks, targets[at + 1]);
    }
}

// Those of every pair that was seen.
fn redirect_all(marks: &Marks, targets: &mut Targets, seen: &[u64])
    requires seen_len { length seen.now ≤ 64 }
    requires by_index { (i r : ℕ) → i < 4096 → r < 2 → (get_or targets.old (index i r) 0 ≡ 65535 → ⊥)
        → Member seen.now i }
    ensures { targets.new ≡ map (redirected marks.now) targets.old }
{
    for (p, word) in seen.iter().enumerate() {
        redirect_word(marks, targets, p, *word);
    }
}

// The same. Where no place is kept, which is soon seen, no target is redirected.
fn redirect_kept(marks: &Marks, targets: &mut Targets, seen: &[u64])
    requires seen_len { length seen.now ≤ 64 }
    requires by_index { (i r : ℕ) → i < 4096 → r < 2 → (get_or targets.old (index i r) 0 ≡ 65535 → ⊥)
        → Member seen.now i }
    ensures { targets.new ≡ map (redirected marks.now) targets.old }
{
    if blank(marks, 4096, 64) {
        return;
    }
    redirect_all(marks, targets, seen);
}

// So many words from the first on have all members: those behind the last that is not 0 have none.
fn used(seen: &[u64]) -> usize
    ensures { (result ≤ length seen.now) × ((n : ℕ) → Member seen.now n → Member (take result seen.now) n) }
{
    match seen.iter().rposition(|word| *word != 0) {
        Some(last) => last + 1,
        None => 0,
    }
}

// Whether the new start is kept, or is the new alarm without the old one being the old alarm.
fn is_alone(heads: Heads, marks: &Marks) -> bool
    ensures { result ≡ alone heads marks.now }
{
    let first = start_pair(heads);
    is_marked(marks, start_kept(heads)) || !fair(heads, old_of(first), new_of(first))
}

// The new start alone, kept.
fn leave_alone(
    heads: Heads,
    marks: &mut Marks,
    targets: &mut Targets,
    sets: &mut Sets,
    waiting: &mut Waiting,
)
    ensures { buffers marks.new targets.new sets.new waiting.new ≡ lone heads }
{
    clear(marks, targets, sets, waiting);
    marks[start_kept(heads)] = 2;
}

// How many of a row of marks are v. They are few enough for a small number, so that many are counted together.
fn count_row(row: &[u8], v: u8) -> usize
    requires { length row.now ≤ 64 }
    ensures { result ≡ count v row.now }
{
    let mut n = 0;
    for mark in row {
        n += u8::from(*mark == v);
    }
    n as usize
}

// The final contents of the buffers, where no pair waits, and the start with the counts of marks 1, 2 and 3. Only pairs
// that were seen are looked at, up to the last word that has one: all that have something in a buffer, the start pair
// unless its new place is left alone. Whoever has buffers as found hands over a set with all pairs.
pub fn finish(
    heads: Heads,
    marks: &mut Marks,
    targets: &mut Targets,
    sets: &mut Sets,
    waiting: &mut Waiting,
    seen: &Pairs,
) -> Summary
    requires { Covers seen.now (buffers marks.old targets.old sets.old waiting.old)
        × (alone heads marks.old ≡ false → Member seen.now (start_pair heads)) }
    ensures { (buffers marks.new targets.new sets.new waiting.new
        ≡ finished heads (buffers marks.old targets.old sets.old waiting.old))
        × (result ≡ summary (start_of heads marks.old) marks.new) }
{
    if is_alone(heads, &*marks) {
        leave_alone(heads, marks, targets, sets, waiting);
        return Summary {
            start: start_kept(heads),
            opened: 0,
            kept: 1,
            covered: 0,
        };
    }
    let first = start_pair(heads);
    let top = used(seen);
    let cut = &seen[..top];
    redirect_kept(&*marks, targets, cut);
    let counts = rank(marks, &*targets, first, cut);
    Summary {
        start: first,
        opened: counts.opened,
        kept: count_row(&marks[4096..], 2),
        covered: counts.covered,
    }
}
