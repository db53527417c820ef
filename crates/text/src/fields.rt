// The fields of a text: a number, perhaps within double quotes, and the comma or the end of the record after it.
ghost use Rattle.std.specs.Prelude.{◌≡◌, ◌+◌, ◌*◌, ◌≤◌, nat_le, Ok};
ghost use Rattle.text.specs.Fields.{byte_at, kind, judged, number_at, followed, field_at, line_end, closed, missing, item_at};
ghost use Rattle.text.specs.inner.Digits.{TellsDigit};

use crate::causes::Unfit;
use base::Reason;

// What a field may hold: any number, the row count, or a spare of the first record.
#[derive(Clone, Copy, Debug, PartialEq, Eq)]
pub enum Kind {
    Plain,
    Count,
    Spare,
}

// A number and the offset after it: one struct for code and definitions.
#[derive(Clone, Copy, Debug, PartialEq, Eq)]
pub struct Number {
    pub value: u32,
    pub next: usize,
}

// What a field may hold, by its number in the text: first those of the rows, which are nearly all.
fn kind_of(field: usize) -> Kind
    ensures { result ≡ kind field }
{
    if 5 < field {
        return Kind::Plain;
    }
    match field {
        2 => Kind::Count,
        3..=5 => Kind::Spare,
        _ => Kind::Plain,
    }
}

// The digit at an offset, above 9 where none stands there.
fn digit(text: &[u8], at: usize) -> u32
    ensures { TellsDigit result (byte_at text.now at) }
{
    let Some(&b) = text.get(at) else {
        return 10;
    };
    u32::from(b).wrapping_sub(48)
}

// Whether a number is a u32 with one digit more.
fn has_room(value: u32, d: u32) -> bool
    requires { d ≤ 9 }
    ensures { result ≡ nat_le (value * 10 + d) 4294967295 }
{
    if value < 429496729 {
        return true;
    }
    if value == 429496729 {
        return d <= 5;
    }
    false
}

// A number whose digits have ended, judged by what its field may hold.
fn judge(field: usize, first: usize, number: Number) -> Result<Number, Unfit>
    ensures { result ≡ judged (kind field) first number.next number.value }
{
    match kind_of(field) {
        Kind::Plain => Ok(number),
        Kind::Count => {
            if number.value <= 128 {
                return Ok(number);
            }
            Err(Unfit::new(Reason::Exceeding, first))
        }
        Kind::Spare => {
            if number.value == 0 {
                return Ok(number);
            }
            Err(Unfit::new(Reason::BadNumber, first))
        }
    }
}

// The number whose first digit stands at an offset. A leading zero is told before the loop, so that each further digit
// costs less.
fn number_at(text: &[u8], first: usize, field: usize) -> Result<Number, Unfit>
    ensures { result ≡ number_at (kind field) text.now first }
{
    let mut value = digit(text, first);
    if 9 < value {
        return Err(Unfit::new(Reason::BadByte, first));
    }
    let mut next = first + 1;
    if value == 0 {
        if digit(text, next) <= 9 {
            return Err(Unfit::new(Reason::BadNumber, first));
        }
        return judge(field, first, Number { value, next });
    }
    loop {
        let d = digit(text, next);
        if 9 < d {
            return judge(field, first, Number { value, next });
        }
        if !has_room(value, d) {
            return Err(Unfit::new(Reason::BadNumber, first));
        }
        value = value * 10 + d;
        next += 1;
    }
}

// The number, if the byte follows it.
fn follow(text: &[u8], number: Number, b: u8) -> Result<Number, Unfit>
    ensures { result ≡ followed b text.now (Ok number) }
{
    let at = number.next;
    match text.get(at) {
        Some(&found) if found == b => Ok(Number {
            value: number.value,
            next: at + 1,
        }),
        _ => Err(Unfit::new(Reason::BadByte, at)),
    }
}

// A number, perhaps within double quotes.
fn field_at(text: &[u8], at: usize, field: usize) -> Result<Number, Unfit>
    ensures { result ≡ field_at (kind field) text.now at }
{
    let Some(&b) = text.get(at) else {
        return Err(Unfit::new(Reason::BadByte, at));
    };
    if b == 34 {
        let number = number_at(text, at + 1, field)?;
        return follow(text, number, 34);
    }
    number_at(text, at, field)
}

// The number, if the record ends after it: with the text, or by CRLF.
fn line_end(text: &[u8], number: Number) -> Result<Number, Unfit>
    ensures { result ≡ line_end text.now (Ok number) }
{
    if text.len() <= number.next {
        return Ok(number);
    }
    let returned = follow(text, number, 13)?;
    follow(text, returned, 10)
}

// The number, if what closes this field follows it.
fn close(text: &[u8], number: Number, field: usize) -> Result<Number, Unfit>
    ensures { result ≡ closed field text.now (Ok number) }
{
    if field % 6 == 5 {
        return line_end(text, number);
    }
    follow(text, number, 44)
}

// Whether a record should begin at an offset where the text has ended.
fn is_missing(text: &[u8], at: usize, field: usize) -> bool
    ensures { result ≡ missing field text.now at }
{
    text.len() <= at && field % 6 == 0
}

// A field of the text, by its number, at an offset.
pub fn item_at(text: &[u8], at: usize, field: usize) -> Result<Number, Unfit>
    ensures { result ≡ item_at field text.now at }
{
    if is_missing(text, at, field) {
        return Err(Unfit::new(Reason::WrongEnd, text.len()));
    }
    let number = field_at(text, at, field)?;
    close(text, number, field)
}
