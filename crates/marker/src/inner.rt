// What a build is made of: Algorithm 1. All of it has a `requires`: buffers of the stated lengths. No entry point
// stands here.
pub mod openings; // openings.rt: one pair that is opened
pub mod spread; // spread.rt: open marks along chains of pairs
pub mod marks; // marks.rt: Algorithm 1
