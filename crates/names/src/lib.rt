// The names of places, keys that an input method composed, and what is wrong with a name.
#![tactic(auto)]

pub mod composed;
pub mod fault;
pub mod phys_names;
pub mod variants;
