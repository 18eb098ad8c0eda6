// Readers of the dialects.
#![tactic(auto)]

pub mod faults;
pub mod filling;
pub mod frame_reader;
pub mod kitty;
pub mod once;
pub mod reader;
