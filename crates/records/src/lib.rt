// Records: marks, targets and sets, as builder and checker have them. No entry point stands here: what the crates above
// may call is in `inner`.
#![tactic(auto)]

pub mod inner; // inner.rt: for the crates above

// The mark of every node: of 4,096 pairs and 64 kept places.
pub type Marks = [u8; 4160];

// The targets of every pair, two to a pair.
pub type Targets = [u16; 8192];

// The set of every pair.
pub type Sets = [u64; 4096];
