// What a build is made of. Its functions ask for the shape of the buffers and for who was seen: no entry point stands
// here.
pub mod finish; // finish.rt: the end of a build
