// What every record of two charts is like: a start, marks and targets that can be (refusal 31).
ghost use Rattle.std.specs.Prelude.{◌≡◌, ℕ, ◌+◌, ◌*◌, ◌<◌, ◌≤◌, length, nat_le, nat_lt, slice_index};
ghost use Rattle.base.specs.Says.{eq, ne, le, ◌and◌, ◌or◌, each, below, bool};
ghost use Rattle.checker.specs.Rules.{start_named, mark_fits, marks_fit, target_fits, targets_fit, shaped};

use chart::charts::Heads;
use chart::inner::pairs::{start_kept, start_pair};
use records::inner::marks::blank;
use records::{Marks, Targets};

// Whether the start is one of the two nodes that a record can start from.
fn start_named(heads: Heads, start: u32) -> bool
    ensures { result ≡ bool (start_named heads start) }
{
    let n = start as usize;
    if n == start_pair(heads) {
        return true;
    }
    n == start_kept(heads)
}

// The mark, or 255 for the one that must not be.
fn rated(x: u8, never: u8) -> u8
    ensures { (k : ℕ) → k < 255 → nat_le result k ≡ bool (ne x never and le x k) }
{
    if x == never {
        return 255;
    }
    x
}

// The largest of n marks, 255 if one is `never`: at most k exactly where each is, and none is `never`. There is no
// early end, so that many are taken at once.
fn worst(marks: &Marks, from: usize, n: usize, never: u8) -> u8
    requires { from + n ≤ 4160 }
    ensures { (k : ℕ) → k < 255 → nat_le result k ≡ bool
        (each n (λ j. ne (slice_index marks.now (from + j)) never and le
        (slice_index marks.now (from + j)) k)) }
{
    let mut w: u8 = 0;
    for j in 0..n {
        w = w.max(rated(marks[from + j], never));
    }
    w
}

// Of 64 marks, whether the first n are at most `most` and not `never`, and the others 0.
fn line_fits(marks: &Marks, from: usize, n: usize, most: u8, never: u8) -> bool
    requires { (from + 64 ≤ 4160) × (n ≤ 64) × (most < 255) × (0 < never) }
    ensures { result ≡ bool (each 64 (λ j. eq (slice_index marks.now (from + j)) 0 or below j n and ne
        (slice_index marks.now (from + j)) never and le (slice_index marks.now (from + j)) most)) }
{
    if most < worst(marks, from, n, never) {
        return false;
    }
    blank(marks, from + n, 64 - n)
}

// How many of 64 places there are.
fn shown(n: u32) -> usize
    ensures { (result ≤ 64) × ((j : ℕ) → j < 64 → nat_lt j result ≡ nat_lt j n) }
{
    n.min(64) as usize
}

// Whether the 64 nodes at old place p have marks that can be: for pairs 1, 3 or 4, and for the kept nodes, p = 64, 2.
fn place_fits(heads: Heads, marks: &Marks, p: usize) -> bool
    requires { p < 65 }
    ensures { result ≡ bool (each 64 (λ j. mark_fits heads (64 * p + j)
        (slice_index marks.now (64 * p + j)))) }
{
    let from = 64 * p;
    let n = shown(heads.new.places);
    if p == 64 {
        return line_fits(marks, from, n, 2, 1);
    }
    if p < shown(heads.old.places) {
        return line_fits(marks, from, n, 4, 2);
    }
    blank(marks, from, 64)
}

fn marks_fit(heads: Heads, marks: &Marks) -> bool
    ensures { result ≡ bool (marks_fit heads marks.now) }
{
    for p in 0..65 {
        if !place_fits(heads, marks, p) {
            return false;
        }
    }
    true
}

// A number that is at most 4,160 exactly where the target fits: one more, 0 for 65535.
fn wrapped(t: u16) -> u16
    ensures { nat_le result 4160 ≡ bool (target_fits t) }
{
    t.wrapping_add(1)
}

// By the largest of all, with no early end, so that many are taken at once.
fn targets_fit(targets: &Targets) -> bool
    ensures { result ≡ bool (targets_fit targets.now) }
{
    let mut w: u16 = 0;
    for target in targets {
        w = w.max(wrapped(*target));
    }
    w <= 4160
}

// The targets come before the marks: few ways lead past their loop then, and the compiler aligns it.
pub fn shaped(heads: Heads, start: u32, marks: &Marks, targets: &Targets) -> bool
    ensures { result ≡ bool (shaped heads start marks.now targets.now) }
{
    if !start_named(heads, start) {
        return false;
    }
    if !targets_fit(targets) {
        return false;
    }
    marks_fit(heads, marks)
}
