//! Linear programs by the exact simplex.
#![tactic(auto)]

mod answer;
mod ending;
mod first;
mod laws;
mod pivot;
mod reading;
mod solve;
mod table;
mod turn;

pub use answer::LpAnswer;
pub use laws::path_laws;
pub use solve::solve_lp;
