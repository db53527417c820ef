// What the crates above may call. Some of it has a `requires`, as operands that fit or 64 values, or leaves an answer
// open. No entry point stands here.
pub mod meaning; // meaning.rt: what an operation does with values
pub mod opposed; // opposed.rt: two assumptions that compare the same in opposite ways
pub mod trials; // trials.rt: how two assumptions are tested
