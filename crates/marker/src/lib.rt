// The source's Algorithm 1, the condition generator: the marks. No entry point stands here: the crate builder has it.
#![tactic(auto)]

pub mod inner; // inner.rt: for the crates above
