// A seat turns key events into reports, and reports into bytes on a wire.
#![tactic(auto)]

mod calls;
mod mode;
pub mod refusal;
mod resuming;
pub mod seat;
