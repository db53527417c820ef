// The condition of a whole build: its definition, and the end of a build, which leaves it and tells its start and
// counts. No entry point stands here: the crate builder has it.
#![tactic(auto)]

pub mod inner; // inner.rt: for the crate builder

// "The answer has the start and the counts of marks 1, 2 and 3": of open, kept and covered nodes.
#[derive(Clone, Copy)]
pub struct Summary {
    pub start: usize,
    pub opened: usize,
    pub kept: usize,
    pub covered: usize,
}
