// Fields read into a table of numbers.
ghost use Rattle.std.specs.Prelude.{◌≡◌, ◌+◌, ◌≤◌, ◌++◌, length, drop};
ghost use Rattle.text.specs.inner.Walk.{numbers_at, laid, reach_at};

use crate::causes::Unfit;
use crate::fields::item_at;

// So many fields of a text, from this field at an offset on, into the front of a table: as far as they fit, and the
// rest of the table stays. The offset after them.
pub fn fields_into(
    text: &[u8],
    at: usize,
    field: usize,
    n: usize,
    table: &mut [u32],
) -> Result<usize, Unfit>
    requires { (n ≤ length table.old) × (field + n ≤ 774) }
    ensures { (result ≡ reach_at n field text.now at)
        × (table.new ≡ laid (numbers_at n field text.now at) table.old) }
{
    let mut p = at;
    for i in 0..n {
        let number = item_at(text, p, field + i)?;
        table[i] = number.value;
        p = number.next;
    }
    Ok(p)
}

// The numbers into the front of a table. One by one: with `copy_from_slice` libpicker.a would need memmove.
pub fn copy(numbers: &[u32], table: &mut [u32])
    requires { length numbers.now ≤ length table.old }
    ensures { table.new
        ≡ numbers.now ++ drop (length numbers.now) table.old }
{
    for (i, number) in numbers.iter().enumerate() {
        table[i] = *number;
    }
}
