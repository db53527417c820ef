// One record of four fields.
ghost use Rattle.std.specs.Prelude.{◌+◌, ◌≤◌, length};
ghost use Rattle.text.specs.inner.Puts.{Put};
ghost use Rattle.report.specs.Lines.{line};

use text::inner::bytes::put_fields;

// Four numbers as a record, and the offset after it.
pub fn put_line(bytes: &mut [u8], at: usize, a: u32, b: u32, c: u32, d: u32) -> usize
    requires { at + 45 ≤ length bytes.old }
    ensures { (Put bytes.old at (line a b c d) bytes.new result) × (result ≤ at + 45) }
{
    let fields = [a, b, c, d];
    put_fields(bytes, at, 2, &fields)
}
