// The byte strings that dialects write reports as.
#![tactic(auto)]

pub mod dialect;
pub mod endings;
pub mod kitty;
pub mod pen;
pub mod streams;
