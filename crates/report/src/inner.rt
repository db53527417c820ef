// What the portions are made of. Some of it has a `requires`: bytes with room enough. No entry point stands here.
pub mod lines; // lines.rt: one record of four fields
pub mod transitions; // transitions.rt: the transitions of one pair
