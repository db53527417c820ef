// A pair is taken as a number below 4,096: contracts require this. No entry point stands here.
pub mod members; // members.rt: adding a pair, removing one, listing one, and the bits of one word
