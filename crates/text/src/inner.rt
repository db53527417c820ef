// What reading and writing are made of. Some of it has a `requires`: a table or a buffer with room enough. No entry
// point stands here.
pub mod bytes; // bytes.rt: fields put into lent bytes
pub mod table; // table.rt: fields read into a table
pub mod walk; // walk.rt: the walk over a text
pub mod writer; // writer.rt: the text of a chart put into lent bytes
