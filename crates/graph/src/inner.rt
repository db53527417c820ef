// What a build does to the buffers. Most of it has a `requires`: places that exist. No entry point stands here.
pub mod graphs; // graphs.rt: what a turn does to the four buffers
