// The check of a record against two charts, and what a record that passes it promises. Here stands the entry point,
// which refuses bad input itself; `inner` is what the crates above may call once charts and lengths are known to be
// right.
#![tactic(auto)]

ghost use Rattle.std.specs.Prelude.{◌≡◌, IsOk};
ghost use Rattle.std.specs.Result.{result_err};
ghost use Rattle.chart.specs.Compared.{compared};
ghost use Rattle.chart.specs.Faultless.{FaultlessChart};
ghost use Rattle.records.specs.Records.{record_of};
ghost use Rattle.checker.specs.Checks.{record_fault, refusal};
ghost use Rattle.checker.specs.Promise.{Promise};

use base::{Reason, Refusal};
use chart::charts::Heads;
use chart::inner::comparison::Comparison;
use inner::examined::Examined;
use inner::lengths::sized;
use inner::shape::shaped;
use records::{Marks, Sets, Targets};

pub mod inner; // inner.rt: for the crates above

// The record's shape before its rules.
fn record_fault<'a>(
    heads: Heads,
    old_rows: &'a [u32],
    new_rows: &'a [u32],
    start: u32,
    marks: &'a Marks,
    targets: &'a Targets,
    sets: &'a Sets,
) -> Result<(), Refusal>
    requires old_faultless { FaultlessChart (compared heads old_rows.now new_rows.now).old }
    requires new_faultless { FaultlessChart (compared heads old_rows.now new_rows.now).new }
    ensures { result_err result
        ≡ record_fault (compared heads old_rows.now new_rows.now)
        (record_of start marks.now targets.now sets.now) }
{
    if !shaped(heads, start, marks, targets) {
        return Err(Refusal::sole(Reason::Misshapen, 0));
    }
    let charts = Comparison::new(heads, old_rows, new_rows);
    let examined = Examined {
        charts,
        marks,
        targets,
        sets,
    };
    match examined.broken(start) {
        Some(position) => Err(Refusal::sole(Reason::BrokenRule, position)),
        None => Ok(()),
    }
}

// The check: the refusal that is due, if any. What passes keeps the promise: a run of the new chart that reaches its
// alarm and that the record covers has a run of the old chart, from the same values, that reaches the old alarm.
pub fn check<'a>(
    heads: Heads,
    old_rows: &'a [u32],
    new_rows: &'a [u32],
    start: u32,
    marks: &[u8],
    targets: &[u16],
    sets: &[u64],
) -> Result<(), Refusal>
    ensures is { result_err result
        ≡ refusal (compared heads old_rows.now new_rows.now)
        (record_of start marks.now targets.now sets.now) }
    ensures promise { IsOk result
        → Promise (compared heads old_rows.now new_rows.now)
        (record_of start marks.now targets.now sets.now) }
{
    chart::judged(sized(marks, targets, sets), heads, old_rows, new_rows)?;
    // The lengths are the stated ones.
    let marks: &Marks = marks.as_array().unwrap();
    let targets: &Targets = targets.as_array().unwrap();
    let sets: &Sets = sets.as_array().unwrap();
    record_fault(heads, old_rows, new_rows, start, marks, targets, sets)
}
