//! Verdicts.
use crate::short::Short;
use sm_frac::Frac;

/// What a log ends with. Values are in the model's own sense, one per goal.
#[derive(Drop)]
pub enum Verdict {
    /// The best solution is an optimum of these values.
    Optimal {
        values: Short<Frac>,
    },
    /// There is a solution, and any will do.
    Satisfied,
    /// No solution exists.
    Infeasible,
    /// The bound on nodes was reached; no solution has a better first value than `bound`.
    Limit {
        nodes: u64,
        bound: Frac,
        best: Option<Short<Frac>>,
    },
    /// A leaf's program passed the range of fractions.
    Range {
        bound: Frac,
        best: Option<Short<Frac>>,
    },
}
