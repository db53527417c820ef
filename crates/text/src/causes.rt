// Why a text does not fit.
ghost use Rattle.std.specs.Prelude.{◌≡◌};
ghost use Rattle.text.specs.Causes.{refusal_of};

use base::{Reason, Refusal};

// The reason, and the offset at which the text does not fit: one struct for code and definitions. Each answer below the
// entry points is a success or this.
#[derive(Clone, Copy, Debug, PartialEq, Eq)]
pub struct Unfit {
    pub reason: Reason,
    pub offset: usize,
}

impl Unfit {
    // The text does not fit for this reason, at this offset.
    pub fn new(reason: Reason, offset: usize) -> Unfit
        ensures { result ≡ record { reason = reason; offset = offset } }
    {
        Unfit { reason, offset }
    }
}

impl From<Unfit> for Refusal {
    ghost from_gives = { λ unfit refusal. refusal ≡ refusal_of unfit };

    fn from(unfit: Unfit) -> Refusal {
        Refusal::sole(unfit.reason, unfit.offset)
    }
}
