// The text of a chart put into lent bytes.
ghost use Rattle.std.specs.Prelude.{◌≤◌, length};
ghost use Rattle.chart.specs.Charts.{charted};
ghost use Rattle.text.specs.Written.{written};
ghost use Rattle.text.specs.inner.Puts.{Put};

use crate::inner::bytes::put_fields;
use chart::charts::Head;

// The first record and the rows, and the offset after them.
pub fn put_chart(head: Head, rows: &[u32], bytes: &mut [u8]) -> usize
    requires { (8643 ≤ length bytes.old) × (length rows.now ≤ 768) }
    ensures { (Put bytes.old 0 (written (charted head rows.now)) bytes.new result)
        × (result ≤ 8643) }
{
    let count = (rows.len() / 6) as u32;
    let first = [head.places, head.alarm, count, 0, 0, 0];
    let p = put_fields(bytes, 0, 0, &first);
    put_fields(bytes, p, 6, rows)
}
