// What the program prints, in portions of at most 1,024 bytes. Together they are `printed` of specs/Printed.antt.
#![tactic(auto)]

ghost use Rattle.std.specs.Prelude.{[], take};
ghost use Rattle.records.specs.Records.{graph_of};
ghost use Rattle.report.specs.Lines.{refusal_line};
ghost use Rattle.report.specs.Printed.{summary_line};
ghost use Rattle.report.specs.Portions.{Front, Portioned};

use inner::lines::put_line;
use inner::transitions::{Extent, put_pairs};
use records::{Marks, Targets};

pub mod inner; // inner.rt: what the portions are made of

// The record of a refusal, at the front of the bytes, and their count.
pub fn refusal(number: u32, chart: u32, position: u32, bytes: &mut [u8; 1024]) -> usize
    ensures { Front bytes.old
        (refusal_line (record { number = number; chart = chart; position = position }))
        bytes.new result }
{
    put_line(bytes, 0, 9999, number, chart, position)
}

// The first record of a condition, at the front of the bytes, and their count.
pub fn summary(start: u32, opened: u32, kept: u32, covered: u32, bytes: &mut [u8; 1024]) -> usize
    ensures { Front bytes.old
        (summary_line (record { start = start; opened = opened; kept = kept; covered = covered }))
        bytes.new result }
{
    put_line(bytes, 0, start, opened, kept, covered)
}

// Some of the transitions from this pair on, at the front of the bytes. A chart has at most 128 rows: no entry past
// them is looked at. Nor are sets, so that any will do in the graph that the contract names.
pub fn portion(
    table: &[u32],
    marks: &Marks,
    targets: &Targets,
    pair: usize,
    bytes: &mut [u8; 1024],
) -> Extent
    ensures { Portioned (take 768 table.now) (graph_of marks.now targets.now [])
        pair bytes.old bytes.new result.next result.count }
{
    if table.len() < 768 {
        return put_pairs(table, marks, targets, pair, bytes);
    }
    put_pairs(&table[..768], marks, targets, pair, bytes)
}
