//! The names of an expansion, and the tuples of its binders.
#![tactic(auto)]

mod binders;
mod cases;
mod scope;

pub use cases::Cases;
pub use scope::{Scope, Thing};
