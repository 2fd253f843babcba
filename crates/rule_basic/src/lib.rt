//! The rules and the rows of linear constraints, clauses, conditional rows and lemmas: whether an inference by one of them is
//! lawful, and what the row of a name reads.
#![tactic(auto)]

mod clause;
mod clause_row;
mod forms;
mod inference;
mod lemma;
mod lin_row;
mod link_row;
mod mean_row;
mod named;
mod sum;
mod turns;
mod when;

pub use inference::valid;
pub use lemma::valid_lemma;
pub use named::row;
