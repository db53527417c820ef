// Places of the old and of the new chart: an old place number is never taken for a new one. Only the number of a pair
// joins them.
// A place of the old chart (L in the source).
#[derive(Clone, Copy, Debug, PartialEq, Eq)]
pub struct OldPlace(pub u32);

// A place of the new chart (L' in the source).
#[derive(Clone, Copy, Debug, PartialEq, Eq)]
pub struct NewPlace(pub u32);

// A place of whichever chart is named.
#[derive(Clone, Copy)]
pub enum Place {
    Old(OldPlace),
    New(NewPlace),
}
