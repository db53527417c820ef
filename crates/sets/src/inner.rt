// A variable is taken as a number below 64: contracts require it. No entry point stands here.
pub mod bits; // bits.rt: sets as the bits of a u64
