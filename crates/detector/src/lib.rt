// The source's Algorithm 2, the difference detector, over four lent buffers. No entry point stands here: the crate
// builder has it.
#![tactic(auto)]

pub mod inner; // inner.rt: for the crates above
