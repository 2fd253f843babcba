//! The search loop: depth first, each step one line of the log.
#![tactic(auto)]

mod leaf;
mod pick;
mod refusal;
mod running;
mod search;
mod solved;
mod turn;

pub use refusal::WorkRefusal;
pub use running::{Halt, SolveRefusal, solve};
pub use solved::Solved;
