// Rows where they stand in a table, and the part of a table that leaves a place.
ghost use Rattle.std.specs.Prelude.{◌≡◌, cond, ℕ, ◌+◌, ◌-◌, ◌*◌, ◌<◌, ◌≤◌, eqb, length, get_or, take, drop};
ghost use Rattle.base.specs.Tests.{some_below};
ghost use Rattle.operations.specs.Operations.{is_assignment, same};
ghost use Rattle.operations.specs.Trials.{never_holds};
ghost use Rattle.chart.specs.Charts.{size, from, to, operation, can_be_taken, leaving};
ghost use Rattle.chart.specs.Lookup.{Stands};
ghost use Rattle.chart.specs.inner.Ascending.{Ascending};
ghost use Rattle.chart.specs.inner.Index.{Lower, Indexable, Ends, Carried, Indexed, table_of, number_of};

use crate::places::{NewPlace, OldPlace, Place};
use operations::Operation;
use operations::assumptions::never_holds;

// The place that row i leaves.
pub fn from_at(rows: &[u32], i: usize) -> u32
    requires { i < size rows.now }
    ensures { result ≡ from rows.now i }
{
    rows[i * 6]
}

// The place that it leads to.
pub fn to_at(rows: &[u32], i: usize) -> u32
    requires { i < size rows.now }
    ensures { result ≡ to rows.now i }
{
    rows[i * 6 + 1]
}

// Whether its operation is an assignment: the code alone is looked at.
pub fn is_assignment_at(rows: &[u32], i: usize) -> bool
    requires { i < size rows.now }
    ensures { result ≡ is_assignment (operation rows.now i) }
{
    operations::is_assignment_code(rows[i * 6 + 2])
}

// The operand a of its operation alone: the variable that an assignment writes.
pub fn a_at(rows: &[u32], i: usize) -> u32
    requires { i < size rows.now }
    ensures { result ≡ (operation rows.now i).a }
{
    rows[i * 6 + 3]
}

// Its operation, copied out of the table.
pub fn operation_at(rows: &[u32], i: usize) -> Operation
    requires { i < size rows.now }
    ensures { result ≡ operation rows.now i }
{
    let at = i * 6;
    Operation {
        code: rows[at + 2],
        a: rows[at + 3],
        b: rows[at + 4],
        c: rows[at + 5],
    }
}

// Whether there is a row i that can be taken: other than an assumption that no values meet.
pub fn can_be_taken(rows: &[u32], i: usize) -> bool
    ensures { result ≡ can_be_taken rows.now i }
{
    if rows.len() / 6 <= i {
        return false;
    }
    !never_holds(operation_at(rows, i))
}

// Whether some row of a table can never be taken. It is asked once for all rows, with no jump and no early end, so that
// whoever takes many steps through a table without such rows need not ask for each.
pub fn some_never(rows: &[u32]) -> bool
    ensures { result ≡ some_below (size rows.now) (λ i. never_holds (operation rows.now i)) }
{
    let n = rows.len() / 6;
    let mut some = false;
    for i in 0..n {
        some = some | never_holds(operation_at(rows, i));
    }
    some
}

// Where row i of the old table leads.
pub fn old_to(rows: &[u32], i: usize) -> OldPlace
    requires { i < size rows.now }
    ensures { result.0 ≡ to rows.now i }
{
    OldPlace(to_at(rows, i))
}

// Where row i of the new table leads.
pub fn new_to(rows: &[u32], i: usize) -> NewPlace
    requires { i < size rows.now }
    ensures { result.0 ≡ to rows.now i }
{
    NewPlace(to_at(rows, i))
}

// Whether field k of row i of one table and of row j of another are equal.
fn same_field(rows: &[u32], i: usize, others: &[u32], j: usize, k: usize) -> bool
    requires { (i < size rows.now) × (j < size others.now) × (k < 6) }
    ensures { result ≡ eqb (get_or rows.now (i * 6 + k) 0) (get_or others.now (j * 6 + k) 0) }
{
    rows[i * 6 + k] == others[j * 6 + k]
}

// Whether row i of one table and row j of another have equal operations: compared where they stand, no row is copied.
pub fn same_operation(rows: &[u32], i: usize, others: &[u32], j: usize) -> bool
    requires { (i < size rows.now) × (j < size others.now) }
    ensures { result ≡ same (operation rows.now i) (operation others.now j) }
{
    same_field(rows, i, others, j, 2)
        & (same_field(rows, i, others, j, 3)
            & (same_field(rows, i, others, j, 4) & same_field(rows, i, others, j, 5)))
}

// The first row whose "from" is not below the place, or the count of rows.
fn lower(rows: &[u32], place: u32) -> usize
    requires { Ascending rows.now }
    ensures { Lower rows.now place result }
{
    let (each, _) = rows.as_chunks::<6>();
    each.partition_point(|row| row[0] < place)
}

// The first row from `first` on that does not leave the place.
fn past(rows: &[u32], place: u32, first: usize) -> usize
    requires ascending { Ascending rows.now }
    requires lower { Lower rows.now place first }
    ensures { Lower rows.now (place + 1) result }
{
    let n = rows.len() / 6;
    (first..n).find(|&i| from_at(rows, i) != place).unwrap_or(n)
}

// The rows from `first` up to `end`, as a part of the table.
fn part(rows: &[u32], first: usize, end: usize) -> &[u32]
    requires { (first ≤ end) × (end ≤ size rows.now) }
    ensures is { result.now ≡ take (end * 6 - first * 6) (drop (first * 6) rows.now) }
    ensures stands { (result.ref_ptr.0 ≡ rows.entry.ref_ptr.0)
        × (result.ref_ptr.1 ≡ rows.entry.ref_ptr.1 + first * 6 * 4) }
{
    let a = first * 6;
    let e = end * 6;
    &rows[a..e]
}

// The rows that leave a place, as a part of their table: sought there, for whoever has no index.
pub fn rows_in(rows: &[u32], place: u32) -> &[u32]
    requires { Ascending rows.now }
    ensures is { result.now ≡ leaving rows.now place }
    ensures stands { Stands result.ref_ptr rows.entry.ref_ptr result.now rows.now }
{
    let first = lower(rows, place);
    part(rows, first, past(rows, place, first))
}

// Stores after each place the number of the row after its last one, for the places that have rows: a later row of a
// place wins.
fn ends(entries: &mut [u8; 130], at: usize, rows: &[u32])
    requires indexable { Indexable rows.now × (at ≤ 65) }
    requires blank { (p : ℕ) → p ≤ 64 → get_or entries.old (at + p) 0 ≡ 0 }
    ensures { Ends rows.now (size rows.now) at entries.old entries.new }
{
    for i in 0..rows.len() / 6 {
        entries[at + from_at(rows, i) as usize + 1] = (i + 1) as u8;
    }
}

// An entry, or the last one before it that is not 0.
fn later(last: u8, entry: u8) -> u8
    ensures { result ≡ cond (eqb entry 0) last entry }
{
    if entry == 0 { last } else { entry }
}

// A place without rows ends where the one before it ends.
fn carry(entries: &mut [u8; 130], at: usize)
    requires { at ≤ 65 }
    ensures { Carried entries.old at 65 entries.new }
{
    let mut last: u8 = 0;
    for p in 0..65 {
        last = later(last, entries[at + p]);
        entries[at + p] = last;
    }
}

// The index of two tables, made once, so that no lookup after it has to search.
pub fn index(old: &[u32], new: &[u32]) -> [u8; 130]
    requires indexable { Indexable old.now }
    requires indexable_2 { Indexable new.now }
    ensures { Indexed old.now new.now result }
{
    let mut entries = [0u8; 130];
    ends(&mut entries, 0, old);
    ends(&mut entries, 65, new);
    carry(&mut entries, 0);
    carry(&mut entries, 65);
    entries
}

// The rows between two neighbouring entries of an index.
pub(crate) fn rows_at<'a>(rows: &'a [u32], index: &[u8; 130], at: usize) -> &'a [u32]
    requires { (at < 129) × (get_or index.now at 0 ≤ get_or index.now (at + 1) 0)
        × (get_or index.now (at + 1) 0 ≤ size rows.now) }
    ensures { result.now
        ≡ take (get_or index.now (at + 1) 0 * 6 - get_or index.now at 0 * 6)
        (drop (get_or index.now at 0 * 6) rows.now) }
{
    part(rows, usize::from(index[at]), usize::from(index[at + 1]))
}

// The rows that leave a place of either chart, by the index of both: for whoever has no `Comparison`.
pub fn rows_of<'a>(old: &'a [u32], new: &'a [u32], index: &[u8; 130], place: Place) -> &'a [u32]
    requires indexed { Indexed old.now new.now index.now }
    requires ascending { Ascending (table_of place old.now new.now) × (number_of place < 64) }
    ensures { result.now ≡ leaving (table_of place old.now new.now) (number_of place) }
{
    match place {
        Place::Old(p) => rows_at(old, index, p.0 as usize),
        Place::New(q) => rows_at(new, index, 65 + q.0 as usize),
    }
}
