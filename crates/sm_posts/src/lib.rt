//! Constraints of a text, each once or at each tuple of its binders that passes.
#![tactic(auto)]

mod adding;
mod posting;

pub use posting::post;
