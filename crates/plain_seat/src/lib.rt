// The plain seat, and what it is that the bytes of a seat have one reading.
#![tactic(auto)]

pub mod theorem;
