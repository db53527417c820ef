// Sets of variables as bits. No entry point stands here: what the crates above may call is in `inner`.
#![tactic(auto)]

pub mod inner; // inner.rt: for the crates above
