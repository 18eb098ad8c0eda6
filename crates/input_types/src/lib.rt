// The records of wezterm-input-types and the maps between them.
#![tactic(auto)]

pub mod control;
pub mod event;
pub mod flags;
pub mod key_code;
pub mod modifiers;
pub mod phys_key_code;
