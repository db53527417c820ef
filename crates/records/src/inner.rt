// What goes through the marks of a record. It has a `requires`: that they are there. No entry point stands here.
pub mod marks; // marks.rt: several marks at once
