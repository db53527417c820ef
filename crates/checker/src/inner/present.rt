// A pair that is present, with what its targets are judged by: one value for all rules of a target.
ghost use Rattle.std.specs.Prelude.{◌≡◌, ◌<◌};
ghost use Rattle.chart.specs.Charts.{leaving};
ghost use Rattle.chart.specs.Places.{new_of};
ghost use Rattle.checker.specs.inner.Examinations.{charts_in};

use crate::inner::examined::Examined;

// Pair m, and the part of the new table that leaves its new place.
#[derive(Clone, Copy)]
pub struct Present<'a> {
    pub examined: &'a Examined<'a>,
    pub m: usize,
    pub rows: &'a [u32],
    ghost pair: { m < 4096 },
    ghost part: { rows.now ≡ leaving (charts_in examined.now).new.table (new_of m).0 },
}
