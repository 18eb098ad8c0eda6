// Reads frames, exactly.
#![tactic(auto)]

pub mod bodies;
pub mod found;
pub mod heads;
pub mod quads;
pub mod whole_frames;
