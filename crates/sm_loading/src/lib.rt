//! The files of a model: the tree of its text, and the tables of its data files.
//!
//! [`load`] reads the model file and then each data file, in the order of their names, and answers what they come to, or
//! the first refusal.
#![tactic(auto)]

mod loading;
mod refusal;

pub use loading::{Loaded, load};
pub use refusal::LoadRefusal;
