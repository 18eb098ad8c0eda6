// The names of keys, modifiers and lights, written to the caller's buffers.
#![tactic(auto)]

pub mod flags;
pub mod keys;
mod pieces;
pub mod put;
