//! What a model text means, what it is worth, what it lists, and what is first refused of it.
//!
//! Here stand the definitions alone, over the tree of the text and the tables of the data files. An expression means a
//! function of the variables' values; a refusal is the first of what is tried, in the order of the text.
#![tactic(auto)]

mod range;
mod refusal;

pub use range::Range;
pub use refusal::{ExpandRefusal, Wrong};
