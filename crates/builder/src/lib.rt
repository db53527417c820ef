// The builder: the condition of Algorithms 2 and 1, over four lent buffers. Here stands the entry point, which refuses
// bad input itself.
#![tactic(auto)]

ghost use Rattle.std.specs.Prelude.{◌≡◌, None, Ok};
ghost use Rattle.base.specs.Says.{bool};
ghost use Rattle.chart.specs.Compared.{compared};
ghost use Rattle.chart.specs.inner.Comparisons.{charts_of};
ghost use Rattle.records.specs.Records.{record_of};
ghost use Rattle.checker.specs.Checks.{refusal as check_refusal};
ghost use Rattle.condition.specs.declared.Summary.{Summary};
ghost use Rattle.graph.specs.Buffers.{buffers};
ghost use Rattle.condition.specs.Builds.{built, recorded, summary};
ghost use Rattle.paper.specs.Returned.{Returned};
ghost use Rattle.builder.specs.Answers.{lent, answered, left};

use base::Refusal;
use chart::charts::Heads;
use chart::inner::comparison::Comparison;
use checker::inner::lengths::sized;
use condition::Summary;
use condition::inner::finish::finish;
use detector::inner::explore::explore;
use detector::inner::turns::Tracked;
use graph::Waiting;
use records::{Marks, Sets, Targets};

// Whether each of the four lent lengths is the stated one.
fn lent(marks: &[u8], targets: &[u16], sets: &[u64], waiting: &[u8]) -> bool
    ensures { result
        ≡ bool (lent (buffers marks.now targets.now sets.now
        waiting.now)) }
{
    (waiting.len() == 4096) & sized(marks, targets, sets)
}

// Both algorithms on faultless charts. Which pairs they saw is told from one to the other by a set of them, so that
// none looks at all pairs.
fn complete(
    charts: &Comparison<'_>,
    marks: &mut Marks,
    targets: &mut Targets,
    sets: &mut Sets,
    waiting: &mut Waiting,
) -> Summary
    ensures { (buffers marks.new targets.new sets.new waiting.new ≡ built (charts_of charts.now))
        × (result ≡ summary (recorded (charts_of charts.now)).start marks.new) }
{
    let mut tracked = Tracked {
        waits: [0; 65],
        seen: [0; 64],
    };
    explore(charts, marks, targets, sets, waiting, &mut tracked);
    finish(charts.heads, marks, targets, sets, waiting, &tracked.seen)
}

// A build, or the refusal that is due, which writes nothing. What a build leaves, with the start it answers, the check
// of the same edition passes, and it is what the source's Algorithms 2 and 1 return, in edition 2 with its footnotes 6
// and 8, given the new chart without the rows that never hold.
pub fn build<'a>(
    heads: Heads,
    old_rows: &'a [u32],
    new_rows: &'a [u32],
    marks: &mut [u8],
    targets: &mut [u16],
    sets: &mut [u64],
    waiting: &mut [u8],
) -> Result<Summary, Refusal>
    ensures answer { result ≡ answered (compared heads old_rows.now new_rows.now)
        (buffers marks.old targets.old sets.old waiting.old) }
    ensures leaves { buffers marks.new targets.new sets.new waiting.new
        ≡ left (compared heads old_rows.now new_rows.now)
        (buffers marks.old targets.old sets.old waiting.old) }
    ensures passes { (s : Summary) → result ≡ Ok s
        → check_refusal (compared heads old_rows.now new_rows.now)
        (record_of s.start marks.new targets.new sets.new) ≡ None }
    ensures algorithms { (s : Summary) → result ≡ Ok s
        → Returned (compared heads old_rows.now new_rows.now)
        (record_of s.start marks.new targets.new sets.new) }
{
    let lengths = lent(&*marks, &*targets, &*sets, &*waiting);
    chart::judged(lengths, heads, old_rows, new_rows)?;
    // The lengths are the stated ones.
    let marks: &mut Marks = marks.as_mut_array().unwrap();
    let targets: &mut Targets = targets.as_mut_array().unwrap();
    let sets: &mut Sets = sets.as_mut_array().unwrap();
    let waiting: &mut Waiting = waiting.as_mut_array().unwrap();
    let charts = Comparison::new(heads, old_rows, new_rows);
    Ok(complete(&charts, marks, targets, sets, waiting))
}
