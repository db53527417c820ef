// Algorithm 1: the final marks, from those between turns and the final targets.
ghost use Rattle.std.specs.Prelude.{◌≡◌, ◌+◌, ◌*◌, ◌≤◌, ◌<◌, length, get_or, drop};
ghost use Rattle.base.specs.Walks.{count};
ghost use Rattle.words.specs.inner.Words.{Member};
ghost use Rattle.marker.specs.inner.Spans.{remade, each};
ghost use Rattle.marker.specs.inner.Seen.{Holds, HoldsBeyond};
ghost use Rattle.marker.specs.Marks.{plain_marks, all_opened};
ghost use Rattle.marker.specs.inner.Parts.{plain_as, cover_from};
ghost use Rattle.marker.specs.inner.Openings.{Tried, Swept};
ghost use Rattle.marker.specs.Marks.{cover, all_covered, final_marks};
ghost use Rattle.marker.specs.inner.Spreads.{Passed};
ghost use Rattle.marker.specs.inner.Counts.{Counted};

use crate::inner::openings::open_if;
use crate::inner::spread::spread;
use records::{Marks, Targets};
use words::inner::members::{self, Bits, DOWNWARDS, UPWARDS};

fn plain_mark(v: u8, x: u8) -> u8
    ensures { result ≡ plain_as v x }
{
    if x == 0 {
        return 0;
    }
    v
}

// v for those of the 64 marks from `from` on that are not 0.
fn plain_row(marks: &mut Marks, from: usize, v: u8)
    requires { from + 64 ≤ 4160 }
    ensures { marks.new ≡ remade from (from + 64) (plain_as v) marks.old }
{
    for i in from..from + 64 {
        marks[i] = plain_mark(v, marks[i]);
    }
}

// Pairs 4, kept places 2. Old places of which no pair was seen have no marks.
fn plain(marks: &mut Marks, seen: &[u64])
    requires { Holds seen.now marks.old }
    ensures { marks.new ≡ plain_marks marks.old }
{
    for (p, word) in seen.iter().enumerate() {
        if *word != 0 {
            plain_row(marks, 64 * p, 4);
        }
    }
    plain_row(marks, 4096, 2);
}

// Opens pair i, if it is to be opened; a pair that was opened leaves rest, the pairs that may still be.
fn open_out(marks: &mut Marks, targets: &Targets, rest: &mut [u64], i: usize) -> usize
    requires { (i < 64 * length rest.old) × HoldsBeyond rest.old marks.old }
    ensures { Tried targets.now marks.old i result marks.new
        × HoldsBeyond rest.new marks.new }
{
    let n = open_if(marks, targets, i);
    if n == 0 {
        return n;
    }
    members::remove(rest, i);
    n
}

// Opens every pair of word p that is to be opened when its turn comes, and says how many that were. It goes through
// those that are in rest when it begins: what is opened leaves rest, and none comes in.
fn sweep_word<const DOWN: bool>(
    marks: &mut Marks,
    targets: &Targets,
    rest: &mut [u64],
    p: usize,
) -> usize
    requires { (p < length rest.old) × HoldsBeyond rest.old marks.old }
    ensures { Swept targets.now marks.old (64 * p) (64 * p + 64) result marks.new
        × HoldsBeyond rest.new marks.new }
{
    let mut n = 0;
    for q in Bits::<DOWN>(rest[p]) {
        n += open_out(marks, targets, rest, 64 * p + q);
    }
    n
}

// Opens every pair that is to be opened when its turn comes, from the highest of rest down or from the lowest up, and
// says how many that were.
fn sweep<const DOWN: bool>(marks: &mut Marks, targets: &Targets, rest: &mut [u64]) -> usize
    requires { HoldsBeyond rest.old marks.old }
    ensures { Swept targets.now marks.old 0 4096 result marks.new
        × HoldsBeyond rest.new marks.new }
{
    let words = rest.len();
    let mut n = 0;
    for k in 0..words {
        let p = if DOWN { words - 1 - k } else { k };
        n += sweep_word::<DOWN>(marks, targets, rest, p);
    }
    n
}

// A pass down and, if it opens pairs, one up: 0, if the last of them opened none, which shows that none is left. Rows
// mostly lead to higher nodes, so that few such passes are needed; that up is for chains that lead to lower nodes.
fn sweep_both(marks: &mut Marks, targets: &Targets, rest: &mut [u64]) -> usize
    requires { HoldsBeyond rest.old marks.old }
    ensures { Passed targets.now marks.old result marks.new
        × HoldsBeyond rest.new marks.new }
{
    if sweep::<DOWNWARDS>(marks, targets, rest) == 0 {
        return 0;
    }
    sweep::<UPWARDS>(marks, targets, rest)
}

// All pairs from which an open or kept node is a target. Where three passes each way still open pairs, they stand on
// chains that go up and down, which rounds over few new places follow with less work than passes. Few small charts have
// such chains.
fn open_rest(marks: &mut Marks, targets: &Targets, rest: &mut [u64])
    requires { HoldsBeyond rest.old marks.old }
    ensures { marks.new ≡ all_opened targets.now marks.old }
{
    while sweep_both(marks, targets, rest) != 0
        && sweep_both(marks, targets, rest) != 0
        && sweep_both(marks, targets, rest) != 0
    {
        spread(marks, targets, &*rest);
    }
}

// At first any pair seen may be opened.
fn open_all(marks: &mut Marks, targets: &Targets, seen: &[u64])
    requires { Holds seen.now marks.old }
    ensures { (marks.new ≡ all_opened targets.now marks.old)
        × Holds seen.now marks.new }
{
    let mut words = [0u64; 64];
    let rest = &mut words[..seen.len()];
    rest.copy_from_slice(seen);
    open_rest(marks, targets, rest);
}

// How many pairs are open, and how many became covered.
#[derive(Clone, Copy)]
pub struct Counts {
    pub opened: usize,
    pub covered: usize,
}

// A target of an open pair that is beyond becomes covered: how many that were.
fn cover(marks: &mut Marks, n: u16) -> usize
    ensures { (marks.new ≡ cover marks.old n)
        × (count 3 marks.new ≡ result + count 3 marks.old) × (result ≤ 1) }
{
    let at = n as usize;
    if marks.len() <= at {
        return 0;
    }
    if marks[at] != 4 {
        return 0;
    }
    marks[at] = 3;
    1
}

// The same of both targets of pair i, which is open.
fn cover_from(marks: &mut Marks, targets: &Targets, i: usize) -> usize
    requires { (i < 4096) × (get_or marks.old i 0 ≡ 1) }
    ensures { (marks.new ≡ cover_from targets.now marks.old i)
        × (count 3 marks.new ≡ result + count 3 marks.old) × (result ≤ 2) }
{
    let at = 2 * i;
    cover(marks, targets[at]) + cover(marks, targets[at + 1])
}

// The same of the open pairs of word p, which are counted too, from `so` on. Those not seen have no mark, and are not
// open.
fn cover_word(marks: &mut Marks, targets: &Targets, seen: &[u64], p: usize, so: Counts) -> Counts
    requires held { (p < length seen.now) × Holds seen.now marks.old }
    requires opened_bound { (so.opened ≤ 4160) × (so.covered ≤ 4160) }
    ensures { (marks.new ≡ each (cover_from targets.now) (64 * p) 64 marks.old)
        × Counted marks.old marks.new (64 * p) (64 * p + 64) so result }
{
    let mut opened = so.opened;
    let mut covered = so.covered;
    for q in Bits::<UPWARDS>(seen[p]) {
        if marks[64 * p + q] == 1 {
            opened += 1;
            covered += cover_from(marks, targets, 64 * p + q);
        }
    }
    Counts { opened, covered }
}

// The other targets of open pairs, and how many pairs are open and became covered.
fn cover_all(marks: &mut Marks, targets: &Targets, seen: &[u64]) -> Counts
    requires { Holds seen.now marks.old }
    ensures { (marks.new ≡ all_covered targets.now marks.old)
        × (count 1 marks.new ≡ result.opened + count 1 (drop 4096 marks.new))
        × (count 3 marks.new ≡ result.covered + count 3 marks.old) }
{
    let mut c = Counts {
        opened: 0,
        covered: 0,
    };
    for p in 0..seen.len() {
        c = cover_word(marks, targets, seen, p, c);
    }
    c
}

// All of it, from the start pair n, and the counts of marks 1 and 3. The pairs seen have every pair with a mark, and
// the start pair.
pub fn rank(marks: &mut Marks, targets: &Targets, n: usize, seen: &[u64]) -> Counts
    requires { (n < 4096) × Holds seen.now marks.old × Member seen.now n }
    ensures { (marks.new ≡ final_marks n targets.now marks.old)
        × (result.opened ≡ count 1 marks.new) × (result.covered ≡ count 3 marks.new) }
{
    plain(marks, seen);
    marks[n] = 1;
    open_all(marks, targets, seen);
    cover_all(marks, targets, seen)
}
