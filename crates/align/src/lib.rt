// One aligned step of an old and a new chart. No entry point stands here: what the crates above may call is in `inner`.
#![tactic(auto)]

pub mod spots; // spots.rt: an old place with its set
pub mod inner; // inner.rt: for the crates above
