//! Circuit: starting at node 0 and following the variables, all nodes are visited before the walk is back at 0.
ghost use Rattle.std.specs.Prelude.{◌≡◌, ◌≤◌, ◌+◌, ◌↔◌, IsTrue, IsSome, IfSome, true};
ghost use Rattle.sm_kinds.specs.Circuit.{IsCircuit, circuit_size, EachCircuitVar, SatCircuit};

use crate::limits::{MOST_TERMS, left_after};
use crate::values::{Values, VarTest, place};
use crate::var::{Var, is_set};

/// Whether the variables are within the limits, and fit these variables.
pub fn fits(vars: &[Var], successors: &[u32]) -> bool
    ensures { IsTrue result ↔ IsCircuit vars.now successors.now }
{
    successors.len() <= MOST_TERMS && successors.iter().all(|x| is_set(vars, *x))
}

/// What is left of a count without the size of the circuit, which counts for none.
pub fn spend(_successors: &[u32], left: u64) -> Option<u64>
    ensures variant { IsSome result ↔ (circuit_size _successors.now ≤ left) }
    ensures value { IfSome result (λ r. r + circuit_size _successors.now ≡ left) }
{
    left_after(left, 0)
}

/// Whether each variable passes the test.
pub fn every_var<T: VarTest>(successors: &[u32], test: &T) -> bool
    ensures { IsTrue result ↔ EachCircuitVar (λ v. T.passing test.now v ≡ true) successors.now }
{
    successors.iter().all(|x| test.test(*x))
}

/// Whether a walk from node 0 is back there after as many steps as there are nodes, and not before. Then no node comes twice
/// on it, since the walk is the same after each visit; so each comes once.
pub fn holds<V: Values>(successors: &[u32], a: &V) -> bool
    ensures { IsTrue result ↔ SatCircuit successors.now (V.point a.now) }
{
    let count = successors.len();
    let mut node: usize = 0;
    for step in 0..count {
        if step > 0 && node == 0 {
            return false;
        }
        match place(a, successors[node], count) {
            Some(next) => node = next,
            None => return false,
        }
    }
    node == 0
}
