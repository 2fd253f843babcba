//! The goals of a text, or exactly the first refusal in the order of the text.
#![tactic(auto)]

mod aim;
mod goal;
mod limits;

pub use goal::goals;
