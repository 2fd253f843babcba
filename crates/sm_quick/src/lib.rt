//! A quick simplex for linear programs that proposes answers, each of which carries its own proof.
#![tactic(auto)]

mod build;
mod choice;
mod number;
mod opening;
mod pivot;
mod proposing;
mod reading;
mod row;
mod search;
mod tableau;
mod turn;

pub use proposing::propose;
