// The settings that programs push and pop, a row for each screen.
#![tactic(auto)]

pub mod resuming;
pub mod row;
pub mod settings;
