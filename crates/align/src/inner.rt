// What the crates above may call. Some of it has a `requires`: a faultless chart, a row that is there. No entry point
// stands here.
pub mod reads; // reads.rt: the variables that an operation reads
pub mod seek; // seek.rt: the first row of a place that is as sought
pub mod follow; // follow.rt: old assignments up to the old alarm or the next assumption
pub mod step; // step.rt: one aligned step
