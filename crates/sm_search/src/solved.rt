//! What a search comes to.
use sm_flat::Assignment;
use sm_step::Verdict;

/// The verdict that the log of a search ends in, and the last solution of that log.
#[derive(Drop)]
pub struct Solved {
    /// The verdict, true of the model: `Optimal`, `Satisfied` or `Infeasible`.
    pub verdict: Verdict,
    /// The best solution, of which the verdict is true.
    pub best: Option<Assignment>,
}
