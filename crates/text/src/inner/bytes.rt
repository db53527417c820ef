// Fields put into lent bytes.
ghost use Rattle.std.specs.Prelude.{◌≡◌, ◌+◌, ◌%◌, ◌<◌, ◌≤◌, length, slice_set};
ghost use Rattle.text.specs.Written.{decimal, closing, field_text, fields_text};
ghost use Rattle.text.specs.inner.Puts.{room, Put};

// One byte, and the offset after it.
fn put_byte(bytes: &mut [u8], at: usize, b: u8) -> usize
    requires { at < length bytes.old }
    ensures { (result ≡ at + 1) × (bytes.new ≡ slice_set bytes.old at b) }
{
    bytes[at] = b;
    at + 1
}

// The byte of a number's last digit.
fn last_digit(x: u32) -> u8
    ensures { result ≡ 48 + x % 10 }
{
    48 + (x % 10) as u8
}

// The digits of a number, and the offset after them.
fn put_digits(bytes: &mut [u8], at: usize, x: u32) -> usize
    requires { at + length (decimal x) ≤ length bytes.old }
    ensures { Put bytes.old at (decimal x) bytes.new result }
{
    if x < 10 {
        return put_byte(bytes, at, last_digit(x));
    }
    let p = put_digits(bytes, at, x / 10);
    put_byte(bytes, p, last_digit(x))
}

// A number, its last digit put here and those before it by `put_digits`: the compiler has this function where it is
// called, so that a number of one digit takes no call.
fn put_number(bytes: &mut [u8], at: usize, x: u32) -> usize
    requires { at + length (decimal x) ≤ length bytes.old }
    ensures { Put bytes.old at (decimal x) bytes.new result }
{
    if x < 10 {
        return put_byte(bytes, at, last_digit(x));
    }
    let p = put_digits(bytes, at, x / 10);
    put_byte(bytes, p, last_digit(x))
}

// What closes a field, and the offset after it.
fn put_closing(bytes: &mut [u8], at: usize, field: usize) -> usize
    requires { at + length (closing field) ≤ length bytes.old }
    ensures { Put bytes.old at (closing field) bytes.new result }
{
    if field % 6 == 5 {
        let p = put_byte(bytes, at, 13);
        return put_byte(bytes, p, 10);
    }
    put_byte(bytes, at, 44)
}

// A field, closed, and the offset after it.
fn put_field(bytes: &mut [u8], at: usize, field: usize, x: u32) -> usize
    requires { at + room field 1 ≤ length bytes.old }
    ensures { (Put bytes.old at (field_text field x) bytes.new result)
        × (result ≤ at + room field 1) }
{
    let p = put_number(bytes, at, x);
    put_closing(bytes, p, field)
}

// The numbers as fields, from this field on, and the offset after them.
pub fn put_fields(bytes: &mut [u8], at: usize, field: usize, numbers: &[u32]) -> usize
    requires numbers_in_bounds { at + room field (length numbers.now) ≤ length bytes.old }
    requires numbers_bound { field + length numbers.now ≤ 774 }
    ensures { (Put bytes.old at (fields_text field numbers.now) bytes.new result)
        × (result ≤ at + room field (length numbers.now)) }
{
    let mut p = at;
    for (i, &x) in numbers.iter().enumerate() {
        p = put_field(bytes, p, field + i, x);
    }
    p
}
