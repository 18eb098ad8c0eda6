// What the rules see of a key event, and the check that it has to pass first.
#![tactic(auto)]

pub mod checked;
pub mod checking;
pub mod fault;
pub mod kind;
pub mod seen;
