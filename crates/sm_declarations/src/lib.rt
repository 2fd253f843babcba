//! Index sets and variables: what a declaration adds to what a front of a text has come to, or the first refusal.
#![tactic(auto)]

mod counts;
mod domain;
mod family;
mod index_set;
mod limits;
mod making;
mod names;
mod sets;
mod spans;

pub use family::variable;
pub use index_set::index;
pub use making::Making;
