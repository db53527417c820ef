// The transitions of one pair.
ghost use Rattle.std.specs.Prelude.{◌≡◌, [], ◌+◌, ◌<◌, ◌≤◌, length, get_or};
ghost use Rattle.text.specs.inner.Puts.{Put};
ghost use Rattle.operations.specs.Trials.{never_holds};
ghost use Rattle.chart.specs.Charts.{operation, leaving};
ghost use Rattle.chart.specs.inner.NoneNever.{NoneNever};
ghost use Rattle.records.specs.Records.{graph_of, read_target};
ghost use Rattle.report.specs.Transitions.{first_row, used, transition_to, of_pair};
ghost use Rattle.report.specs.Portions.{Portioned};

use crate::inner::lines::put_line;
use chart::inner::rows::{from_at, operation_at, some_never};
use operations::assumptions::never_holds;
use records::{Marks, Targets};

// How far a portion goes: the pair that the next one begins with, and the count of its bytes.
#[derive(Clone, Copy)]
pub struct Extent {
    pub next: usize,
    pub count: usize,
}

// The first row of a place, by number: the count of the rows of all lower places.
fn first_row(table: &[u32], place: u32) -> usize
    requires { length table.now ≤ 768 }
    ensures { (result ≡ first_row table.now place) × (result ≤ 128) }
{
    let mut rows = 0;
    for i in 0..table.len() / 6 {
        if from_at(table, i) < place {
            rows += 1;
        }
    }
    rows
}

// Whether row k of a place can never be taken: an assumption that no values meet. The rows of the place are counted as
// they come, so that the table may have any order.
fn never_row(table: &[u32], place: u32, k: usize) -> bool
    ensures { result ≡ never_holds (operation (leaving table.now place) k) }
{
    let mut left = k;
    for i in 0..table.len() / 6 {
        if from_at(table, i) == place {
            if left == 0 {
                return never_holds(operation_at(table, i));
            }
            left -= 1;
        }
    }
    false
}

// The target, at a pair, of row k of its new place, as a reader takes it: none where the row never holds. Where there
// is none anyway, or the table has no row that never holds, as `any_never` says, the row is not looked for.
fn read_target(
    table: &[u32],
    targets: &Targets,
    pair: usize,
    k: usize,
    any_never: bool,
) -> Option<u16>
    requires pair_bound { (pair < 4096) × (k < 2) }
    requires none_never { NoneNever any_never table.now }
    ensures { result ≡ used (read_target table.now (graph_of [] targets.now []) pair k) }
{
    let entry = targets[2 * pair + k];
    if entry == 65535 {
        return None;
    }
    let never = any_never && never_row(table, (pair % 64) as u32, k);
    if never { None } else { Some(entry) }
}

// The mark of a node; what is no node has none.
fn mark_of(marks: &Marks, node: usize) -> u8
    ensures { result ≡ get_or marks.now node 0 }
{
    marks.get(node).copied().unwrap_or(0)
}

// The transition from a pair by a row, if there is a target, and the offset after it.
fn put_transition(
    bytes: &mut [u8],
    at: usize,
    marks: &Marks,
    pair: usize,
    row: usize,
    target: Option<u16>,
) -> usize
    requires at_in_bounds { at + 45 ≤ length bytes.old }
    requires pair_bound { (pair < 4096) × (row ≤ 129) }
    ensures { (Put bytes.old at (transition_to marks.now pair row target)
        bytes.new result) × (result ≤ at + 45) }
{
    let Some(target) = target else {
        return at;
    };
    let mark = mark_of(marks, target as usize);
    put_line(
        bytes,
        at,
        pair as u32,
        row as u32,
        target as u32,
        mark as u32,
    )
}

// The transitions of a pair, and the offset after them.
pub fn put_pair(
    bytes: &mut [u8],
    at: usize,
    table: &[u32],
    marks: &Marks,
    targets: &Targets,
    pair: usize,
    any_never: bool,
) -> usize
    requires at_in_bounds { at + 90 ≤ length bytes.old }
    requires pair_bound { (pair < 4096) × (length table.now ≤ 768) × NoneNever any_never table.now }
    ensures { (Put bytes.old at (of_pair table.now
        (graph_of marks.now targets.now []) pair (get_or marks.now pair 0))
        bytes.new result)
        × (result ≤ at + 90) }
{
    if marks[pair] != 1 {
        return at;
    }
    let row = first_row(table, (pair % 64) as u32);
    let one = read_target(table, targets, pair, 0, any_never);
    let p = put_transition(bytes, at, marks, pair, row, one);
    let two = read_target(table, targets, pair, 1, any_never);
    put_transition(bytes, p, marks, pair, row + 1, two)
}

// The transitions of some pairs from this one on, as far as the bytes have room. Whether some row never holds is asked
// once, before all pairs: where none does, no pair has to ask it of its rows.
pub fn put_pairs(
    table: &[u32],
    marks: &Marks,
    targets: &Targets,
    pair: usize,
    bytes: &mut [u8; 1024],
) -> Extent
    requires { length table.now ≤ 768 }
    ensures { Portioned table.now (graph_of marks.now targets.now [])
        pair bytes.old bytes.new result.next result.count }
{
    let any_never = some_never(table);
    let mut count = 0;
    for next in pair..4096 {
        if 934 < count {
            return Extent { next, count };
        }
        count = put_pair(bytes, count, table, marks, targets, next, any_never);
    }
    Extent {
        next: pair.max(4096),
        count,
    }
}
