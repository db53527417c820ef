// An old place with the variables that may differ there.
use chart::places::OldPlace;

// A place of the old chart, and the set of the variables that may differ from the new chart's.
#[derive(Clone, Copy)]
pub struct Spot {
    pub place: OldPlace,
    pub set: u64,
}
