//! Proposed answers, whose own numbers show that they are right.
use sm_frac::{Frac, RangePassed};

/// A proposed answer to a linear program. Nobody has to trust who proposes it: `certify` says whether its numbers show
/// that it is right.
#[derive(Debug, Drop)]
pub enum Proposal {
    /// The point, each column a number over the denominator, costs least. The multipliers, one a row, give its cost as a
    /// bound.
    Optimal {
        denominator: i64,
        point: Vec<i128>,
        multipliers: Vec<Frac>,
    },
    /// No point satisfies the program. The multipliers, one a row, give a bound above zero for the target zero.
    Infeasible {
        multipliers: Vec<Frac>,
    },
}

/// What the check of a proposal finds.
#[derive(Clone, Copy, Debug, PartialEq, Eq)]
pub enum Checked {
    /// The proposal's numbers show that it is right.
    Certified,
    /// They don't.
    Refuted,
    /// A step of the check is out of the range of fractions, so nothing is said of the proposal.
    Passed(RangePassed),
}
