//! Constraints of a text at one tuple: what they demand, and their tags, or the first refusal.
#![tactic(auto)]

mod choices;
mod demanding;
mod lists;
mod loads;
mod logic;
mod rows;
mod tagging;
mod tasks;

pub use demanding::demand;
pub use tagging::tags;
