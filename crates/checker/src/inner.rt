// What the crates above may call. Some of it has a `requires`: faultless charts, a record of the stated lengths. No
// entry point stands here.
pub mod lengths; // lengths.rt: the lengths of a record
pub mod shape; // shape.rt: what every record of two charts is like
pub mod examined; // examined.rt: what the rules are judged upon
pub mod present; // present.rt: a present pair
pub mod targets; // targets.rt: the rules for one target
pub mod rules; // rules.rt: all rules, in order
