// The modifiers that a list of names stands for.
#![tactic(auto)]

pub mod reading;
