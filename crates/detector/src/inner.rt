// What a build is made of: Algorithm 2. Most of it has a `requires`: faultless charts, buffers of the stated lengths.
// No entry point stands here.
pub mod turns; // turns.rt: Algorithm 2
pub mod explore; // explore.rt: Algorithm 2 to its end
