//! Linear: a sum of variables with coefficients compares with a bound.
ghost use Rattle.std.specs.Prelude.{◌≡◌, ◌≤◌, ◌+◌, ◌↔◌, List, IsTrue, IsSome, IfSome, true};
ghost use Rattle.sm_kinds.specs.declared.var.Var.{Var as Variable};
ghost use Rattle.sm_kinds.specs.Linear.{IsLinear, linear_size, EachLinearVar, SatLinear};

use crate::limits::{MOST_TERMS, is_small, left_after};
use crate::sums::{is_sum, sum_at};
use crate::values::{Values, VarTest, scaled};
use crate::var::Var;
use sqlite_items::Items;

/// How a linear row compares its sum with its bound.
#[derive(Clone, Copy, Debug, PartialEq, Eq)]
pub enum Cmp {
    AtMost,
    AtLeast,
    Equal,
}

/// A linear row: the sum of the terms compares with the bound as `cmp` says.
#[derive(Drop)]
pub struct LinRow {
    /// Variables by number with their coefficients, in increasing order of variable; no coefficient is 0.
    pub terms: Items<(u32, i64)>,
    pub cmp: Cmp,
    pub bound: i64,
}

/// Whether the row is within the limits, and fits these variables.
pub fn fits(vars: &[Var], row: &LinRow) -> bool
    ensures { IsTrue result ↔ IsLinear vars.now row.now }
{
    let terms = row.terms.as_slice();
    is_sum(vars, terms) && terms.len() <= MOST_TERMS && is_small(row.bound)
}

/// What is left of a count without the size of the row.
pub fn spend(row: &LinRow, left: u64) -> Option<u64>
    ensures variant { IsSome result ↔ (linear_size row.now ≤ left) }
    ensures value { IfSome result (λ r. r + linear_size row.now ≡ left) }
{
    left_after(left, row.terms.len())
}

/// Whether each variable of the row passes the test.
pub fn every_var<T: VarTest>(row: &LinRow, test: &T) -> bool
    ensures { IsTrue result ↔ EachLinearVar (λ v. T.passing test.now v ≡ true) row.now }
{
    row.terms.as_slice().iter().all(|t| test.test(t.0))
}

/// Whether the row holds.
pub fn holds<V: Values>(row: &LinRow, a: &V) -> bool
    requires { (vars : List Variable) × IsLinear vars row.now }
    ensures { IsTrue result ↔ SatLinear row.now (V.point a.now) }
{
    let sum = sum_at(row.terms.as_slice(), a);
    let bound = scaled(row.bound, a);
    match row.cmp {
        Cmp::AtMost => sum <= bound,
        Cmp::AtLeast => sum >= bound,
        Cmp::Equal => sum == bound,
    }
}
