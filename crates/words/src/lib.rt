// Sets of pairs as bits of words, so that a set is gone through without a look at every pair. No entry point stands
// here: what the crates above may call is in `inner`.
#![tactic(auto)]

pub mod inner; // inner.rt: for the crates above

// A set of pairs: a bit for each of 4,096.
pub type Pairs = [u64; 64];

// A list of pairs: a set, and behind it a word with a bit for each of the others that may have one.
pub type PairList = [u64; 65];
