// What a key tells: the first rule that fits decides.
#![tactic(auto)]

mod characters;
mod early;
mod input;
pub mod keypad;
mod late;
pub mod laws;
mod making;
pub mod stroke;
pub mod telling;
mod typing;
