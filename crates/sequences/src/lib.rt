// Reads a sequence of the kitty dialect in its long form, exactly.
#![tactic(auto)]

mod making;
pub mod sequences;
pub mod told;
