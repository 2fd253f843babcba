//! Alldiff: the values at different positions differ.
ghost use Rattle.std.specs.Prelude.{◌≡◌, ◌≤◌, ◌<◌, ◌+◌, ◌↔◌, ℕ, IsTrue, IsSome, IfSome, true, length, slice_index_or};
ghost use Rattle.sm_kinds.specs.Alldiff.{IsAlldiff, alldiff_size, EachAlldiffVar, Differ, SatAlldiff};

use crate::limits::{MOST_TERMS, left_after};
use crate::values::{Values, VarTest};
use crate::var::{Var, is_set};

/// Whether the positions are within the limits, and fit these variables.
pub fn fits(vars: &[Var], positions: &[u32]) -> bool
    ensures { IsTrue result ↔ IsAlldiff vars.now positions.now }
{
    positions.len() <= MOST_TERMS && positions.iter().all(|x| is_set(vars, *x))
}

/// What is left of a count without the size of the positions.
pub fn spend(_positions: &[u32], left: u64) -> Option<u64>
    ensures variant { IsSome result ↔ (alldiff_size _positions.now ≤ left) }
    ensures value { IfSome result (λ r. r + alldiff_size _positions.now ≡ left) }
{
    left_after(left, 0)
}

/// Whether each variable passes the test.
pub fn every_var<T: VarTest>(positions: &[u32], test: &T) -> bool
    ensures { IsTrue result ↔ EachAlldiffVar (λ v. T.passing test.now v ≡ true) positions.now }
{
    positions.iter().all(|x| test.test(*x))
}

/// Whether the value at position i differs from that at each later one.
fn differs_from_later<V: Values>(positions: &[u32], i: usize, a: &V) -> bool
    requires { i < length positions.now }
    ensures { IsTrue result ↔ ((j : ℕ) → i < j → j < length positions.now → Differ (V.point a.now) (slice_index_or positions.now i 0) (slice_index_or positions.now j 0)) }
{
    let value = a.numerator(positions[i]);
    for j in i + 1..positions.len() {
        if value == a.numerator(positions[j]) {
            return false;
        }
    }
    true
}

/// Whether the values at different positions differ.
pub fn holds<V: Values>(positions: &[u32], a: &V) -> bool
    ensures { IsTrue result ↔ SatAlldiff positions.now (V.point a.now) }
{
    for i in 0..positions.len() {
        if !differs_from_later(positions, i, a) {
            return false;
        }
    }
    true
}
