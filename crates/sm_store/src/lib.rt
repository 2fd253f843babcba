//! Stores: what values the variables of a model may still have, and how a literal narrows them.
#![tactic(auto)]

mod build;
mod domain;
mod layout;
mod narrow;
mod place;
mod range;
mod set;
mod store;
mod summary;
mod words;

pub use store::Store;
