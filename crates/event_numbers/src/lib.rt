// A key event from numbers and bytes, as a caller in another language has it.
#![tactic(auto)]

pub mod events;
pub mod numbered;
