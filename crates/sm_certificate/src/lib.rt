//! Linear programs, and the check of proposed answers by their own numbers.
#![tactic(auto)]

mod certificate;
mod combination;
mod conditions;
mod feasible;
mod number;
mod program;
mod proposal;

pub use certificate::certify;
pub use conditions::{half_rows, halves_in, is_solvable};
pub use number::{fraction_of, is_negative, is_positive, whole};
pub use program::{LpRow, OutOfMemory, Program};
pub use proposal::{Checked, Proposal};
