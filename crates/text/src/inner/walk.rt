// The walk over a text: one `Reader` keeps the text and the offset reached, from the first field to the last.
ghost use Rattle.std.specs.Prelude.{◌≡◌, ◌≤◌, length};
ghost use Rattle.std.specs.Result.{result_err};
ghost use Rattle.base.specs.Chains.{mapped};
ghost use Rattle.text.specs.Texts.{parsed, heading};
ghost use Rattle.text.specs.inner.Walk.{numbers_at, laid, reach_at, reached, first_at, row_numbers, refusing};

use crate::answers::Heading;
use crate::causes::Unfit;
use crate::inner::table::fields_into;
use base::Reason;
use chart::charts::Head;

#[derive(Clone, Copy)]
pub struct Reader<'a> {
    pub text: &'a [u8],
    pub at: usize,
}

impl<'a> Reader<'a> {
    // A walk that stands at an offset.
    pub fn new(text: &'a [u8], at: usize) -> Reader<'a>
        ensures { (result.text ≡ text.entry) × (result.at ≡ at) }
    {
        Reader { text, at }
    }

    // The first record, "n, alarm, row count, 0, 0, 0", is the next one; the walk moves on past it.
    pub fn first(&mut self) -> Result<Heading, Unfit>
        ensures { (result ≡ first_at self.old.text.now self.old.at)
            × ((self.new.text ≡ self.old.text)
            × (self.new.at ≡ reached (reach_at 6 0 self.old.text.now self.old.at) self.old.at)) }
    {
        let mut numbers = [0u32; 6];
        self.at = fields_into(self.text, self.at, 0, 6, &mut numbers)?;
        let head = Head {
            places: numbers[0],
            alarm: numbers[1],
        };
        Ok(Heading {
            head,
            rows: numbers[2] as usize,
        })
    }

    // So many entries of rows are the next fields; they go to the front of a table, and the walk moves on past them.
    pub fn rows(&mut self, n: usize, table: &mut [u32]) -> Result<(), Unfit>
        requires { (n ≤ length table.old) × (n ≤ 768) }
        ensures { ((result_err result ≡ result_err (reach_at n 6 self.old.text.now self.old.at))
            × (table.new
            ≡ laid (numbers_at n 6 self.old.text.now self.old.at) table.old))
            × ((self.new.text ≡ self.old.text)
            × (self.new.at ≡ reached (reach_at n 6 self.old.text.now self.old.at) self.old.at)) }
    {
        self.at = fields_into(self.text, self.at, 6, n, table)?;
        Ok(())
    }
}

// The chart that a text spells, before its faults are judged: head and row count, or why and where the text does not
// fit. The rows go to the front of a table.
pub fn parse(text: &[u8], table: &mut [u32; 768]) -> Result<Heading, Unfit>
    ensures { (refusing result ≡ mapped heading (parsed text.now))
        × (table.new ≡ laid (row_numbers text.now) table.old) }
{
    if text.len() == 0 {
        return Err(Unfit::new(Reason::NoBytes, 0));
    }
    let mut reader = Reader::new(text, 0);
    let heading = reader.first()?;
    reader.rows(6 * heading.rows, table)?;
    if reader.at < text.len() {
        return Err(Unfit::new(Reason::WrongEnd, reader.at));
    }
    Ok(heading)
}
