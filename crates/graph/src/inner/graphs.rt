// What a turn does to the four lent buffers.
ghost use Rattle.std.specs.Prelude.{◌≡◌, List, ℕ, ◌<◌, length, set, get_or, replicate};
ghost use Rattle.sets.specs.Sets.{joined};
ghost use Rattle.records.specs.Records.{index};
ghost use Rattle.words.specs.inner.Words.{Member, added};
ghost use Rattle.graph.specs.Buffers.{buffers, marked, cleared, untargeted, keep, aim, due, join};
ghost use Rattle.graph.specs.inner.Sized.{Sized};
ghost use Rattle.graph.specs.inner.Tracks.{Covers, listed_if};

use crate::Waiting;
use chart::inner::pairs::{kept, old_of};
use chart::places::{NewPlace, OldPlace};
use records::{Marks, Sets, Targets};
use sets::inner::bits::{alone, holds_all, joined, meets};
use words::inner::members;
use words::{PairList, Pairs};

// Whether a node is in the graph, or kept.
pub fn is_marked(marks: &[u8], n: usize) -> bool
    requires { n < length marks.now }
    ensures { result ≡ marked marks.now n }
{
    marks[n] != 0
}

// No node is left in the graph, no target, no set, and no pair waits.
pub fn clear(marks: &mut Marks, targets: &mut Targets, sets: &mut Sets, waiting: &mut Waiting)
    ensures { buffers marks.new targets.new sets.new waiting.new
        ≡ buffers (replicate 4160 0) (replicate 8192 65535) (replicate 4096 0) (replicate 4096 0) }
{
    marks.fill(0);
    targets.fill(65535);
    sets.fill(0);
    waiting.fill(0);
}

// Pair n leaves all buffers.
fn leave(marks: &mut Marks, targets: &mut Targets, sets: &mut Sets, waiting: &mut Waiting, n: usize)
    requires n_bound { n < 4096 }
    ensures { (marks.new ≡ set marks.old n 0)
        × (targets.new ≡ set (set targets.old (index n 0) 65535) (index n 1) 65535)
        × (sets.new ≡ set sets.old n 0) × (waiting.new ≡ set waiting.old n 0) }
{
    marks[n] = 0;
    let at = 2 * n;
    targets[at] = 65535;
    targets[at + 1] = 65535;
    sets[n] = 0;
    waiting[n] = 0;
}

// All pairs with new place q leave. Those not seen have nothing to leave, and where none of them was seen, none is
// looked for.
fn leave_all(
    marks: &mut Marks,
    targets: &mut Targets,
    sets: &mut Sets,
    waiting: &mut Waiting,
    seen: &Pairs,
    q: NewPlace,
)
    requires q_bound { q.0 < 64 }
    requires covers { Covers seen.now (buffers marks.old targets.old sets.old waiting.old) }
    ensures { (marks.new ≡ cleared q marks.old)
        × (targets.new ≡ untargeted q targets.old)
        × (sets.new ≡ cleared q sets.old)
        × (waiting.new ≡ cleared q waiting.old) }
{
    let k = q.0 as usize;
    if !meets(members::gathered(seen), alone(q.0)) {
        return;
    }
    for p in 0..64 {
        if members::has(seen, p, k) {
            leave(marks, targets, sets, waiting, 64 * p + k);
        }
    }
}

// New place q becomes kept, and all pairs with it leave.
pub fn keep(
    marks: &mut Marks,
    targets: &mut Targets,
    sets: &mut Sets,
    waiting: &mut Waiting,
    seen: &Pairs,
    q: NewPlace,
)
    requires q_bound { q.0 < 64 }
    requires covers { Covers seen.now (buffers marks.old targets.old sets.old waiting.old) }
    ensures { buffers marks.new targets.new sets.new waiting.new
        ≡ keep (buffers marks.old targets.old sets.old waiting.old) q }
{
    leave_all(marks, targets, sets, waiting, seen, q);
    marks[kept(q)] = 1;
}

// The target of row r of pair n, unless the pair has left.
pub fn aim(marks: &Marks, targets: &mut Targets, n: usize, r: usize, to: usize)
    requires n_bound { (n < 4096) × (r < 2) × (to < 65536) }
    ensures { (s w : List ℕ) → buffers marks.now targets.new s w
        ≡ aim (buffers marks.now targets.old s w) n r to }
{
    if marks[n] != 0 {
        let at = 2 * n + r;
        targets[at] = to as u16;
    }
}

// The set of pair n gains v.
fn gain(sets: &mut Sets, n: usize, v: u64)
    requires { n < 4096 }
    ensures { sets.new ≡ set sets.old n (joined (get_or sets.old n 0) v) }
{
    sets[n] = joined(sets[n], v);
}

// Pair n joins the graph with the set v: it is seen, and in the list if it is to wait. Many pairs are there already
// with all of v: of these only the mark is written.
pub fn join(
    alarm: OldPlace,
    marks: &mut Marks,
    sets: &mut Sets,
    waiting: &mut Waiting,
    waits: &mut PairList,
    seen: &mut Pairs,
    n: usize,
    v: u64,
)
    requires n_bound { n < 4096 }
    requires member { 0 < get_or marks.old n 0 → Member seen.old n }
    ensures waits_after { (waits.new ≡ listed_if (due alarm.0 marks.old sets.old n v)
        waits.old n)
        × (seen.new ≡ added seen.old n) }
    ensures by_index { (t : List ℕ) → buffers marks.new t sets.new waiting.new
        ≡ join alarm.0 (buffers marks.old t sets.old waiting.old) n v }
{
    let there = is_marked(&*marks, n);
    marks[n] = 1;
    if there & holds_all(sets[n], v) {
        return;
    }
    members::add(seen, n);
    gain(sets, n, v);
    if old_of(n) != alarm {
        waiting[n] = 1;
        members::list(waits, n);
    }
}
