// Reports as frames for a recorder.
#![tactic(auto)]

pub mod frames;
