// The four lent buffers: the graph of pairs, the kept places and the pairs that wait. No entry point stands here: the
// crate builder has it.
#![tactic(auto)]

pub mod inner; // inner.rt: for the crates above

// A flag for every pair: whether it waits.
pub type Waiting = [u8; 4096];
