//! Formulas of a text as formulas over literals, or exactly the first refusal in the order of the text.
#![tactic(auto)]

mod evaluate;
mod formula;

pub use evaluate::statement;
