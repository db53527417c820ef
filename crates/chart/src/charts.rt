// The heads of charts.
ghost use Rattle.std.specs.Prelude.{◌≡◌};
ghost use Rattle.chart.specs.Compared.{sole_old, sole_new, both_heads};

use crate::places::{NewPlace, OldPlace};

// What a chart is beside its rows: its alarm is one of its places.
#[derive(Clone, Copy, Debug, PartialEq, Eq)]
pub struct HeadOf<P> {
    pub places: u32,
    pub alarm: P,
}

// That of whichever chart it is.
pub type Head = HeadOf<u32>;

// That of the old chart.
pub type OldHead = HeadOf<OldPlace>;

// That of the new chart.
pub type NewHead = HeadOf<NewPlace>;

// What is compared, beside the two tables, and by which edition of the detector: it is passed on whole.
#[derive(Clone, Copy, Debug, PartialEq, Eq)]
pub struct Heads {
    pub edition: u32,
    pub old: OldHead,
    pub new: NewHead,
}

// Both heads, of charts that came one by one, with the edition that is named.
pub fn both_heads(edition: u32, old: Head, new: Head) -> Heads
    ensures { result ≡ both_heads edition old new }
{
    Heads {
        edition,
        old: OldHead {
            places: old.places,
            alarm: OldPlace(old.alarm),
        },
        new: NewHead {
            places: new.places,
            alarm: NewPlace(new.alarm),
        },
    }
}

impl OldHead {
    // As any chart's head: by itself a chart is judged alike, old or new.
    pub fn head(self) -> Head
        ensures { result ≡ sole_old self }
    {
        Head {
            places: self.places,
            alarm: self.alarm.0,
        }
    }
}

impl NewHead {
    // As any chart's head: by itself a chart is judged alike, old or new.
    pub fn head(self) -> Head
        ensures { result ≡ sole_new self }
    {
        Head {
            places: self.places,
            alarm: self.alarm.0,
        }
    }
}
