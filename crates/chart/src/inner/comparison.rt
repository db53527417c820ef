// What is compared, once both charts are known to be faultless: one value for all who take steps, made once and lent.
ghost use Rattle.chart.specs.Compared.{compared};
ghost use Rattle.chart.specs.inner.Prepared.{Prepared};

use crate::charts::Heads;
use crate::inner::rows::{index, rows_at};
use crate::places::{NewPlace, OldPlace};

// The heads and both tables, with an index of the tables, so that no lookup has to search.
#[derive(Drop)]
pub struct Comparison<'a> {
    pub heads: Heads,
    pub old_rows: &'a [u32],
    pub new_rows: &'a [u32],
    pub index: [u8; 130],
    ghost prepared: { Prepared (compared heads old_rows.now new_rows.now) index },
}

impl<'a> Comparison<'a> {
    ghost use Rattle.std.specs.Prelude.{◌≡◌, ◌<◌};
    ghost use Rattle.chart.specs.Charts.{leaving};
    ghost use Rattle.chart.specs.Faultless.{FaultlessChart};
    ghost use Rattle.chart.specs.inner.Comparisons.{charts_of};

    // Of charts that were judged.
    pub fn new(heads: Heads, old_rows: &'a [u32], new_rows: &'a [u32]) -> Comparison<'a>
        requires old_faultless { FaultlessChart (compared heads old_rows.now new_rows.now).old }
        requires new_faultless { FaultlessChart (compared heads old_rows.now new_rows.now).new }
        ensures { charts_of result ≡ compared heads old_rows.now new_rows.now }
    {
        let index = index(old_rows, new_rows);
        Comparison {
            heads,
            old_rows,
            new_rows,
            index,
        }
    }

    // The rows that leave a place of the old chart.
    pub fn old_part(&self, p: OldPlace) -> &'a [u32]
        requires { p.0 < 64 }
        ensures { result.now ≡ leaving (charts_of self.now).old.table p.0 }
    {
        rows_at(self.old_rows, &self.index, p.0 as usize)
    }

    // The rows that leave a place of the new chart.
    pub fn new_part(&self, q: NewPlace) -> &'a [u32]
        requires { q.0 < 64 }
        ensures { result.now ≡ leaving (charts_of self.now).new.table q.0 }
    {
        rows_at(self.new_rows, &self.index, 65 + q.0 as usize)
    }
}
