// Another wire and another layout: a seat over them has what every seat has, with no proof about seats here.
#![tactic(auto)]

pub mod french;
pub mod opening;
#[cfg(test)]
mod tests;
pub mod tray;
