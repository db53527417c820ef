// Charts: what a chart is, and when it is faulty. Here stand the entry points, which refuse bad input themselves;
// `inner` is what the crates above may call once a chart is known to be faultless.
#![tactic(auto)]

ghost use Rattle.std.specs.Prelude.{◌≡◌, cond, eqb, [], ◌<◌};
ghost use Rattle.std.specs.Result.{result_err};
ghost use Rattle.base.specs.Reasons.{reason_number};
ghost use Rattle.chart.specs.Charts.{charted, size, leaving};
ghost use Rattle.chart.specs.Compared.{compared};
ghost use Rattle.chart.specs.Faults.{rows_fault, fault, refusal, judged};
ghost use Rattle.chart.specs.inner.Faulty.{row_number};
ghost use Rattle.chart.specs.Lookup.{open_to, lookup, Stands};

use base::{Reason, Refusal};
use charts::{Head, Heads};
use inner::faults;

pub mod places; // places.rt: places of the old and of the new chart
pub mod charts; // charts.rt: the heads of charts
pub mod inner; // inner.rt: for the crates above

// Which of 4 to 7 row i has, where it has one: asked once, of the first row that has.
fn row_reason(head: Head, rows: &[u32], i: usize) -> Reason
    requires { i < size rows.now }
    ensures { reason_number result ≡ row_number (charted head rows.now) i }
{
    if faults::strays(head, rows, i) {
        return Reason::Straying;
    }
    if faults::descends(rows, i) {
        return Reason::Descending;
    }
    if operations::is_known(inner::rows::operation_at(rows, i)) {
        return Reason::WrongOperand;
    }
    Reason::UnknownCode
}

// 4 to 8, of the chart with this number.
fn rows_fault(chart: u32, head: Head, rows: &[u32]) -> Result<(), Refusal>
    ensures { result_err result ≡ rows_fault chart (charted head rows.now) }
{
    if let Some(i) = faults::first_faulty(head, rows) {
        return Err(Refusal::new(row_reason(head, rows, i), chart, i));
    }
    match faults::first_conflict(rows) {
        Some(i) => Err(Refusal::new(Reason::Conflicting, chart, i)),
        None => Ok(()),
    }
}

// 1 to 8, of the chart with this number.
fn fault(chart: u32, head: Head, rows: &[u32]) -> Result<(), Refusal>
    ensures { result_err result ≡ fault chart (charted head rows.now) }
{
    if faults::lacks(head, rows) {
        return Err(Refusal::new(Reason::Lacking, chart, 0));
    }
    if faults::exceeds(head, rows) {
        return Err(Refusal::new(Reason::Exceeding, chart, 0));
    }
    if faults::alarm_outside(head) {
        return Err(Refusal::new(Reason::AlarmOutside, chart, 0));
    }
    rows_fault(chart, head, rows)
}

// The refusal that is due for a chart: 21, the caller's, for a table that is not whole rows, else the first fault, 1 to
// 8, with its row.
pub fn judge(head: Head, rows: &[u32]) -> Result<(), Refusal>
    ensures { result_err result ≡ refusal (charted head rows.now) }
{
    if !faults::whole(rows) {
        return Err(Refusal::sole(Reason::WrongCall, 0));
    }
    fault(0, head, rows)
}

// The refusal that is due for two charts: 21, where another length of the caller's is not the stated one, the edition
// is neither 1 nor 2, or a table is not whole rows, else the old chart's first fault, with chart 0, else the new one's,
// with chart 1.
pub fn judged<'a>(
    lent: bool,
    heads: Heads,
    old_rows: &'a [u32],
    new_rows: &'a [u32],
) -> Result<(), Refusal>
    ensures { result_err result ≡ judged lent (compared heads old_rows.now new_rows.now) }
{
    let named = faults::edition_named(heads.edition);
    if !(lent & (named & (faults::whole(old_rows) & faults::whole(new_rows)))) {
        return Err(Refusal::sole(Reason::WrongCall, 0));
    }
    fault(0, heads.old.head(), old_rows)?;
    fault(1, heads.new.head(), new_rows)
}

// Whether a chart is faultless and has the place.
fn open_to(head: Head, rows: &[u32], place: u32) -> bool
    ensures { result ≡ open_to (charted head rows.now) place }
{
    judge(head, rows).is_ok() & (place < head.places)
}

// The rows that leave a place of a chart, as a part of its table; an empty part where the chart is faulty or has no
// such place.
fn rows_open(head: Head, rows: &[u32], place: u32) -> &[u32]
    ensures stands { Stands result.ref_ptr rows.entry.ref_ptr result.now rows.now }
    ensures is { result.now
        ≡ cond (open_to (charted head rows.now) place) (leaving rows.now place) [] }
{
    if open_to(head, rows, place) {
        return inner::rows::rows_in(rows, place);
    }
    &rows[0..0]
}

// The rows that leave a place of the chart named (0 old, 1 new), as a part of its table; an empty part where there is
// no such chart or place, or the chart named is faulty.
pub fn lookup<'a>(
    heads: Heads,
    old_rows: &'a [u32],
    new_rows: &'a [u32],
    chart: u32,
    place: u32,
) -> &'a [u32]
    ensures stands { Stands result.ref_ptr (cond (eqb chart 1) new_rows.entry.ref_ptr old_rows.entry.ref_ptr)
        result.now (cond (eqb chart 1) new_rows.now old_rows.now) }
    ensures is { result.now
        ≡ lookup (compared heads old_rows.now new_rows.now) chart place }
{
    if chart == 0 {
        return rows_open(heads.old.head(), old_rows, place);
    }
    if chart == 1 {
        return rows_open(heads.new.head(), new_rows, place);
    }
    &old_rows[0..0]
}
