//! What an expression comes to: a linear form, or exactly the first refusal in the order of the text.
#![tactic(auto)]

mod evaluate;
mod name;
mod product;
mod value;

pub use evaluate::{expression, number, tests};
pub use value::{added, visit};
