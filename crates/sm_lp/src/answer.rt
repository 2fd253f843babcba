//! The answers of the simplex.
use sm_frac::{Frac, RangePassed};

/// What the simplex found at the last basis of its path. The basis lists its numbers, increasing: the columns are numbered
/// from 0, then one slack for each row (two for an equality: of the row and of the row with its signs turned), then one
/// for the greatest end of each column.
#[derive(Debug, Drop)]
pub enum LpAnswer {
    /// The point, each column a number over the denominator, costs least. The multipliers, one a row, show it.
    Optimal {
        basis: Vec<u32>,
        denominator: i64,
        point: Vec<i128>,
        multipliers: Vec<Frac>,
    },
    /// No point satisfies the program. The multipliers, one a row, show it.
    Infeasible {
        basis: Vec<u32>,
        multipliers: Vec<Frac>,
    },
    /// A step of the arithmetic at this basis is out of range.
    Passed {
        basis: Vec<u32>,
        passed: RangePassed,
    },
}
