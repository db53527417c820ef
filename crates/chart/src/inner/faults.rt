// The tests for faults of a chart: what each says, or the index of the first row that it finds.
ghost use Rattle.std.specs.Prelude.{◌≡◌, true, false, ◌&&◌, ◌-◌, ◌<◌, eqb, leb};
ghost use Rattle.base.specs.Options.{when, first_of};
ghost use Rattle.operations.specs.Operations.{is_assumption};
ghost use Rattle.operations.specs.Trials.{exclusive};
ghost use Rattle.chart.specs.Charts.{charted, size, from};
ghost use Rattle.chart.specs.Compared.{edition_named};
ghost use Rattle.chart.specs.Faults.{lacks, exceeds, alarm_outside, strays, descends, conflicts, whole};
ghost use Rattle.chart.specs.inner.Ascending.{Ascending};
ghost use Rattle.chart.specs.inner.Faulty.{faulty};

use crate::charts::Head;
use crate::inner::rows::{from_at, operation_at, to_at};
use operations::Operation;
use operations::assumptions::exactly_one;
use operations::inner::opposed::opposed;

// 21: whether a table is whole rows.
pub fn whole(rows: &[u32]) -> bool
    ensures { result ≡ whole rows.now }
{
    rows.len() % 6 == 0
}

// 21: whether an edition is one of the two.
pub fn edition_named(edition: u32) -> bool
    ensures { result ≡ edition_named edition }
{
    (edition == 1) | (edition == 2)
}

// 1: whether places or rows are missing.
pub fn lacks(head: Head, rows: &[u32]) -> bool
    ensures { result ≡ lacks (charted head rows.now) }
{
    (head.places == 0) | (rows.len() / 6 == 0)
}

// 2: whether there are too many of them.
pub fn exceeds(head: Head, rows: &[u32]) -> bool
    ensures { result ≡ exceeds (charted head rows.now) }
{
    (64 < head.places) | (128 < rows.len() / 6)
}

// 3: whether the alarm is no place.
pub fn alarm_outside(head: Head) -> bool
    ensures { result ≡ alarm_outside head }
{
    head.places <= head.alarm
}

// 4: whether row i leaves or leads to a place that is not below n.
pub fn strays(head: Head, rows: &[u32], i: usize) -> bool
    requires { i < size rows.now }
    ensures { result ≡ strays (charted head rows.now) i }
{
    (head.places <= from_at(rows, i)) | (head.places <= to_at(rows, i))
}

// 5: whether row i has a lower "from" than the row before it.
pub fn descends(rows: &[u32], i: usize) -> bool
    requires { i < size rows.now }
    ensures { result ≡ descends rows.now i }
{
    if i == 0 {
        return false;
    }
    from_at(rows, i) < from_at(rows, i - 1)
}

// 4 to 7: whether row i has one of them.
fn faulty(head: Head, rows: &[u32], i: usize) -> bool
    requires { i < size rows.now }
    ensures { result ≡ faulty (charted head rows.now) i }
{
    strays(head, rows, i) | (descends(rows, i) | !operations::is_right(operation_at(rows, i)))
}

// 4 to 7: the first row that has one.
pub fn first_faulty(head: Head, rows: &[u32]) -> Option<usize>
    ensures { result
        ≡ first_of (size rows.now) (λ i. when (faulty (charted head rows.now) i) i) }
{
    (0..rows.len() / 6).find(|&i| faulty(head, rows, i))
}

// Whether two operations are assumptions of which exactly one holds.
fn one_of(f: Operation, g: Operation) -> bool
    ensures { result ≡ is_assumption f && (is_assumption g && exclusive f g) }
{
    if operations::is_assumption(f) & operations::is_assumption(g) {
        return exactly_one(f, g);
    }
    false
}

// Whether row i is in conflict with an earlier one: rows of one place stand together, so it is enough to go back to the
// first of them.
fn in_conflict(rows: &[u32], i: usize) -> bool
    requires i_bound { i < size rows.now }
    requires ascending { Ascending rows.now }
    ensures { result ≡ conflicts rows.now i }
{
    for j in (0..i).rev() {
        if from_at(rows, j) != from_at(rows, i) {
            return false;
        }
        if !one_of(operation_at(rows, j), operation_at(rows, i)) {
            return true;
        }
    }
    false
}

// Whether row i leaves the same place as the row k before it.
fn same_place(rows: &[u32], i: usize, k: usize) -> bool
    requires { i < size rows.now }
    ensures { result ≡ leb k i && eqb (from rows.now (i - k)) (from rows.now i) }
{
    if i < k {
        return false;
    }
    from_at(rows, i - k) == from_at(rows, i)
}

// Whether row i is plainly in no conflict, as nearly every row: the first of its place, or the second and opposed to
// the first.
fn plainly_apart(rows: &[u32], i: usize) -> bool
    requires i_bound { i < size rows.now }
    requires ascending { Ascending rows.now }
    ensures { result ≡ true → conflicts rows.now i ≡ false }
{
    if !same_place(rows, i, 1) {
        return true;
    }
    if same_place(rows, i, 2) {
        return false;
    }
    opposed(operation_at(rows, i - 1), operation_at(rows, i))
}

// Whether row i is in conflict with an earlier one: looked for only where it is not plainly apart.
fn conflicts(rows: &[u32], i: usize) -> bool
    requires i_bound { i < size rows.now }
    requires ascending { Ascending rows.now }
    ensures { result ≡ conflicts rows.now i }
{
    if plainly_apart(rows, i) {
        return false;
    }
    in_conflict(rows, i)
}

// 8: the first row that is in conflict with an earlier one.
pub fn first_conflict(rows: &[u32]) -> Option<usize>
    requires { Ascending rows.now }
    ensures { result
        ≡ first_of (size rows.now) (λ i. when (conflicts rows.now i) i) }
{
    (0..rows.len() / 6).find(|&i| conflicts(rows, i))
}
