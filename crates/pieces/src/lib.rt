// Readers of the pieces that reports are made of, each exact on every input.
#![tactic(auto)]

pub mod digits;
pub mod found;
pub mod letters;
pub mod octets;
