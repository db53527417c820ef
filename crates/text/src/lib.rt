// Chart texts: the reader and the writer. Here stand the entry points, which refuse bad input themselves.
#![tactic(auto)]

ghost use Rattle.std.specs.Prelude.{◌≡◌, ℕ, ◌↔◌, length, take, Some, Ok};
ghost use Rattle.base.specs.Chains.{mapped};
ghost use Rattle.chart.specs.Charts.{Chart, charted};
ghost use Rattle.text.specs.Texts.{read_into, filled, heading};
ghost use Rattle.text.specs.Written.{writing, printed};
ghost use Rattle.text.specs.Files.{FileOf, chart_read};

use answers::Heading;
use base::{Reason, Refusal};
use chart::charts::Head;
use inner::table::copy;
use inner::walk::parse;
use inner::writer::put_chart;

pub mod answers; // answers.rt: what reading answers
pub mod causes; // causes.rt: why a text does not fit
pub mod fields; // fields.rt: the fields of a text
pub mod inner; // inner.rt: what reading and writing are made of

// The chart of a text: its rows go to the front of the table, which has 768 entries. A refusal leaves the table as it
// was. A chart is answered exactly where the text is its RFC 4180 file.
pub fn read(text: &[u8], table: &mut [u32]) -> Result<Heading, Refusal>
    ensures is { (result ≡ mapped heading (read_into text.now table.old))
        × (table.new ≡ filled (read_into text.now table.old) table.old) }
    ensures file { (C : Chart) → (chart_read result table.new ≡ Some C)
        ↔ (FileOf C text.now × (length table.old ≡ 768)) }
{
    if table.len() != 768 {
        return Err(Refusal::sole(Reason::WrongCall, 0));
    }
    let mut rows = [0u32; 768];
    let heading = parse(text, &mut rows)?;
    let front = &rows[..6 * heading.rows];
    chart::judge(heading.head, front)?;
    copy(front, table);
    Ok(heading)
}

// The text of a chart, at the front of the bytes, of which there are 8,643 or more: the count of those written. A
// refusal leaves them as they were. What is written is the chart's RFC 4180 file.
pub fn write(head: Head, rows: &[u32], bytes: &mut [u8]) -> Result<usize, Refusal>
    ensures is { (result ≡ mapped length (writing (charted head rows.now) (length bytes.old)))
        × (bytes.new
        ≡ printed (writing (charted head rows.now) (length bytes.old)) bytes.old) }
    ensures file { (n : ℕ) → result ≡ Ok n
        → FileOf (charted head rows.now) (take n bytes.new) }
{
    if bytes.len() < 8643 {
        return Err(Refusal::sole(Reason::WrongCall, 0));
    }
    chart::judge(head, rows)?;
    Ok(put_chart(head, rows, bytes))
}
