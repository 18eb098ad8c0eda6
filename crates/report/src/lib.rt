// What is told to the program in the terminal, before it has bytes.
#![tactic(auto)]

pub mod ending;
pub mod letters;
pub mod making;
pub mod report;
pub mod scalar;
pub mod sequence;
pub mod spelling;
pub mod telling;
pub mod text;
pub mod told;
