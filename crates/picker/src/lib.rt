// The C interface (include/picker.h): numbers and lent memory in, one number out. Every function calls one entry point,
// the lookup copies besides, and none has a `requires`.
#![tactic(auto)]

ghost use Rattle.std.specs.Prelude.{◌≡◌, ◌%◌, ◌^◌, ◌<◌, length, None, Ok, Err};
ghost use Rattle.base.specs.Chains.{mapped};
ghost use Rattle.base.specs.Refusals.{unless};
ghost use Rattle.base.specs.inner.Fits.{Fits, FitsOr};
ghost use Rattle.chart.specs.Compared.{both, both_heads};
ghost use Rattle.chart.specs.Faults.{refusal as chart_refusal};
ghost use Rattle.text.specs.Texts.{read_into, filled};
ghost use Rattle.text.specs.Written.{writing, printed};
ghost use Rattle.records.specs.Records.{record_of};
ghost use Rattle.checker.specs.Checks.{refusal};
ghost use Rattle.checker.specs.Promise.{Promise};
ghost use Rattle.graph.specs.Buffers.{buffers};
ghost use Rattle.paper.specs.Returned.{Returned};
ghost use Rattle.builder.specs.Answers.{answered, left};
ghost use Rattle.picker.specs.Lookups.{looked_up, handed, of_rows};
ghost use Rattle.picker.specs.Numbers.{chart_of, number, one, of_chart, of_text, zeros, of_build};
ghost use Rattle.picker.specs.inner.Below.{Below, of_heading};

use base::{Reason, Refusal};
use chart::charts::{Head, Heads, both_heads};
use condition::Summary;
use text::answers::Heading;
use text::inner::table::copy;

// Up to four numbers that a call gives.
#[derive(Clone, Copy)]
struct Four {
    a: u64,
    b: u64,
    c: u64,
    d: u64,
}

// One number, 0, 0, 0.
impl From<usize> for Four {
    ghost from_gives = { λ n four. four ≡ one n };

    fn from(n: usize) -> Four {
        Four {
            a: n as u64,
            b: 0,
            c: 0,
            d: 0,
        }
    }
}

// Of a call that gives nothing: 0, 0, 0, 0.
impl From<()> for Four {
    ghost from_gives = { λ nothing four. four ≡ zeros };

    fn from(_: ()) -> Four {
        Four::from(0usize)
    }
}

// Of a chart that is read: places, alarm, rows, 0.
impl From<Heading> for Four {
    ghost from_gives = { λ heading four. four ≡ of_heading heading };

    fn from(heading: Heading) -> Four {
        Four {
            a: u64::from(heading.head.places),
            b: u64::from(heading.head.alarm),
            c: heading.rows as u64,
            d: 0,
        }
    }
}

// Of a build: start, open, kept, covered.
impl From<Summary> for Four {
    ghost from_gives = { λ summary four. four ≡ of_build summary };

    fn from(summary: Summary) -> Four {
        Four {
            a: summary.start as u64,
            b: summary.opened as u64,
            c: summary.kept as u64,
            d: summary.covered as u64,
        }
    }
}

// Four numbers as one: they fit their places, so that no sum wraps.
fn given(f: Four) -> u64
    requires { Below f }
    ensures { result ≡ number (Ok f) }
{
    f.a + f.b * 16384 + f.c * 268435456 + f.d * 4398046511104
}

// A refusal as one number, above those of what is given.
fn refused(r: Refusal) -> u64
    requires { Fits r }
    ensures { result ≡ number (Err r) }
{
    u64::from(r.number) * 72057594037927936
        + u64::from(r.chart) * 281474976710656
        + r.position as u64
}

// An answer as one number.
fn packed(answer: Result<Four, Refusal>) -> u64
    requires { FitsOr Below answer }
    ensures { result ≡ number answer }
{
    match answer {
        Ok(f) => given(f),
        Err(r) => refused(r),
    }
}

// Both heads, of the numbers that are lent beside the two tables.
fn lent_heads(
    edition: u32,
    old_places: u32,
    old_alarm: u32,
    new_places: u32,
    new_alarm: u32,
) -> Heads
    ensures { result ≡ both_heads edition (record { places = old_places; alarm = old_alarm })
        (record { places = new_places; alarm = new_alarm }) }
{
    let old = Head {
        places: old_places,
        alarm: old_alarm,
    };
    let new = Head {
        places: new_places,
        alarm: new_alarm,
    };
    both_heads(edition, old, new)
}

// The chart of a text, its rows at the front of the table: places, alarm, rows, 0.
#[unsafe(no_mangle)]
pub extern "C" fn picker_read(text: &[u8], table: &mut [u32]) -> u64
    ensures { (result ≡ number (mapped of_chart (read_into text.now table.old)))
        × (table.new ≡ filled (read_into text.now table.old) table.old) }
{
    packed(text::read(text, table).map(Four::from))
}

// The text of a chart, at the front of the bytes: the count of its bytes, 0, 0, 0.
#[unsafe(no_mangle)]
pub extern "C" fn picker_write(places: u32, alarm: u32, rows: &[u32], bytes: &mut [u8]) -> u64
    ensures { (result ≡ number (mapped of_text
        (writing (chart_of places alarm rows.now) (length bytes.old))))
        × (bytes.new ≡ printed
        (writing (chart_of places alarm rows.now) (length bytes.old)) bytes.old) }
{
    packed(text::write(Head { places, alarm }, rows, bytes).map(Four::from))
}

// The first refusal that is due for a chart: 0, 0, 0, 0 where none is.
#[unsafe(no_mangle)]
pub extern "C" fn picker_judge(places: u32, alarm: u32, rows: &[u32]) -> u64
    ensures { result ≡ number (unless (chart_refusal (chart_of places alarm rows.now)) zeros) }
{
    packed(chart::judge(Head { places, alarm }, rows).map(Four::from))
}

// The rows that leave a place of the chart named (0 old, 1 new), at the front of 12 entries: how many rows, 0, 0, 0. No
// lookup depends on an edition, so that none is asked for.
#[unsafe(no_mangle)]
pub extern "C" fn picker_lookup<'a>(
    old_places: u32,
    old_alarm: u32,
    old_rows: &'a [u32],
    new_places: u32,
    new_alarm: u32,
    new_rows: &'a [u32],
    chart: u32,
    place: u32,
    rows: &mut [u32],
) -> u64
    ensures { (result ≡ number (mapped of_rows (looked_up
        (both 1 (chart_of old_places old_alarm old_rows.now)
        (chart_of new_places new_alarm new_rows.now))
        chart place rows.old)))
        × (rows.new ≡ handed (looked_up
        (both 1 (chart_of old_places old_alarm old_rows.now)
        (chart_of new_places new_alarm new_rows.now))
        chart place rows.old) rows.old) }
{
    if rows.len() != 12 {
        return packed(Err(Refusal::sole(Reason::WrongCall, 0)));
    }
    let heads = lent_heads(1, old_places, old_alarm, new_places, new_alarm);
    let part = chart::lookup(heads, old_rows, new_rows, chart, place);
    copy(part, rows);
    packed(Ok(Four::from(part.len() / 6)))
}

// The check of a record by an edition: 0, 0, 0, 0 where it passes. What passes keeps the promise: a run of the new
// chart that reaches its alarm and that the record covers has a run of the old chart, from the same values, that
// reaches the old alarm.
#[unsafe(no_mangle)]
pub extern "C" fn picker_check<'a>(
    edition: u32,
    old_places: u32,
    old_alarm: u32,
    old_rows: &'a [u32],
    new_places: u32,
    new_alarm: u32,
    new_rows: &'a [u32],
    start: u32,
    marks: &[u8],
    targets: &[u16],
    sets: &[u64],
) -> u64
    ensures is { result ≡ number (unless (refusal
        (both edition (chart_of old_places old_alarm old_rows.now)
        (chart_of new_places new_alarm new_rows.now))
        (record_of start marks.now targets.now sets.now)) zeros) }
    ensures promise { result ≡ 0 → Promise
        (both edition (chart_of old_places old_alarm old_rows.now)
        (chart_of new_places new_alarm new_rows.now))
        (record_of start marks.now targets.now sets.now) }
{
    let heads = lent_heads(edition, old_places, old_alarm, new_places, new_alarm);
    packed(checker::check(heads, old_rows, new_rows, start, marks, targets, sets).map(Four::from))
}

// A build by an edition: start, open, kept, covered. What an answer below 2^56 leaves in marks, targets and sets, with
// the start that it tells, the check of that edition passes, and it is what the source's Algorithms 2 and 1 return, in
// edition 2 with its footnotes 6 and 8.
#[unsafe(no_mangle)]
pub extern "C" fn picker_build<'a>(
    edition: u32,
    old_places: u32,
    old_alarm: u32,
    old_rows: &'a [u32],
    new_places: u32,
    new_alarm: u32,
    new_rows: &'a [u32],
    marks: &mut [u8],
    targets: &mut [u16],
    sets: &mut [u64],
    waiting: &mut [u8],
) -> u64
    ensures answer { result ≡ number (mapped of_build (answered
        (both edition (chart_of old_places old_alarm old_rows.now)
        (chart_of new_places new_alarm new_rows.now))
        (buffers marks.old targets.old sets.old waiting.old))) }
    ensures leaves { buffers
        marks.new targets.new sets.new waiting.new
        ≡ left
        (both edition (chart_of old_places old_alarm old_rows.now)
        (chart_of new_places new_alarm new_rows.now))
        (buffers marks.old targets.old sets.old waiting.old) }
    ensures passes { result < 2 ^ 56 → refusal
        (both edition (chart_of old_places old_alarm old_rows.now)
        (chart_of new_places new_alarm new_rows.now))
        (record_of (result % 2 ^ 14) marks.new targets.new sets.new) ≡ None }
    ensures algorithms { result < 2 ^ 56 → Returned
        (both edition (chart_of old_places old_alarm old_rows.now)
        (chart_of new_places new_alarm new_rows.now))
        (record_of (result % 2 ^ 14) marks.new targets.new sets.new) }
{
    let heads = lent_heads(edition, old_places, old_alarm, new_places, new_alarm);
    packed(builder::build(heads, old_rows, new_rows, marks, targets, sets, waiting).map(Four::from))
}
