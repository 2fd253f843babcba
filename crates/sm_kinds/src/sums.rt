//! Sums of variables with coefficients.
ghost use Rattle.std.specs.Prelude.{◌≡◌, ◌≤◌, ◌^◌, ◌*ℤ◌, ◌↔◌, IsTrue, All, length, unsigned_abs};
ghost use Rattle.sm_kinds.specs.Limits.{IsSmall, most_goal_terms};
ghost use Rattle.sm_kinds.specs.Sums.{sum_at, VariablesRise, IsSum};

use crate::limits::is_small;
use crate::values::Values;
use crate::var::Var;

/// Whether the variables of the terms rise.
fn variables_rise(terms: &[(u32, i64)]) -> bool
    ensures { IsTrue result ↔ VariablesRise terms.now }
{
    for i in 1..terms.len() {
        if terms[i - 1].0 >= terms[i].0 {
            return false;
        }
    }
    true
}

/// Whether the terms are a sum over these variables.
pub fn is_sum(vars: &[Var], terms: &[(u32, i64)]) -> bool
    ensures { IsTrue result ↔ IsSum vars.now terms.now }
{
    let count = vars.len();
    terms.iter().all(|t| (t.0 as usize) < count)
        && variables_rise(terms)
        && terms.iter().all(|t| t.1 != 0)
        && terms.iter().all(|t| is_small(t.1))
}

/// A coefficient times a numerator, which leaves room for a sum of 4,096 such products.
fn product(coefficient: i64, numerator: i128) -> i128
    requires coefficient { IsSmall coefficient }
    requires numerator { unsigned_abs numerator ≤ 2 ^ 83 }
    ensures value { result ≡ coefficient *ℤ numerator }
    ensures bound { unsigned_abs result ≤ 2 ^ 114 }
{
    i128::from(coefficient) * numerator
}

/// What a term adds to the sum.
fn term_at<V: Values>(term: &(u32, i64), a: &V) -> i128
    requires { IsSmall term.now.1 }
    ensures value { result ≡ term.now.1 *ℤ (V.point a.now).numerator term.now.0 }
    ensures bound { unsigned_abs result ≤ 2 ^ 114 }
{
    product(term.1, a.numerator(term.0))
}

/// The sum of the terms, times the denominator.
pub fn sum_at<V: Values>(terms: &[(u32, i64)], a: &V) -> i128
    requires few { length terms.now ≤ most_goal_terms }
    requires small { All (λ t. IsSmall t.1) terms.now }
    ensures value { result ≡ sum_at terms.now (V.point a.now).numerator }
    ensures bound { unsigned_abs result ≤ 2 ^ 126 }
{
    let mut total: i128 = 0;
    for term in terms {
        total += term_at(term, a);
    }
    total
}
