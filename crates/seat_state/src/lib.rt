// A seat as numbers that a caller keeps between its calls, each checked before it is trusted.
#![tactic(auto)]

pub mod answer;
pub mod calls;
pub mod kept;
pub mod known;
pub mod opening;
mod over;
