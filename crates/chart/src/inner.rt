// What the crates above may call. Some of it has a `requires`: a faultless chart, a row that is there. No entry point
// stands here.
pub mod comparison; // comparison.rt: what is compared, once it has been judged
pub mod faults; // faults.rt: the tests for faults of a chart
pub mod pairs; // pairs.rt: the number of a pair of places
pub mod rows; // rows.rt: rows where they stand in a table, and those that leave a place
