//! Indexsum: each variable chooses a member of its table, and z equals the sum of these.
ghost use Rattle.std.specs.Prelude.{◌≡◌, ◌≤◌, ◌+◌, ◌↔◌, List, IsTrue, IsSome, IfSome, true};
ghost use Rattle.sm_kinds.specs.declared.var.Var.{Var as Variable};
ghost use Rattle.sm_kinds.specs.IndexSum.{IsIndexSum, indexsum_size, EachIndexSumVar, SatIndexSum};

use crate::choice::{Choice, adds_up, every_choice_var, is_choice, spend_choice};
use crate::values::{Values, VarTest};
use crate::var::Var;

/// Whether the parts are within the limits, and fit these variables.
pub fn fits(vars: &[Var], choice: &Choice) -> bool
    ensures { IsTrue result ↔ IsIndexSum vars.now choice.now }
{
    is_choice(vars, choice)
}

/// What is left of a count without the members of the tables.
pub fn spend(choice: &Choice, left: u64) -> Option<u64>
    ensures variant { IsSome result ↔ (indexsum_size choice.now ≤ left) }
    ensures value { IfSome result (λ r. r + indexsum_size choice.now ≡ left) }
{
    spend_choice(choice, left)
}

/// Whether each variable passes the test.
pub fn every_var<T: VarTest>(choice: &Choice, test: &T) -> bool
    ensures { IsTrue result ↔ EachIndexSumVar (λ v. T.passing test.now v ≡ true) choice.now }
{
    every_choice_var(choice, test)
}

/// Whether each variable chooses a member of its table, and z equals the sum of these.
pub fn holds<V: Values>(choice: &Choice, a: &V) -> bool
    requires { (vars : List Variable) × IsIndexSum vars choice.now }
    ensures { IsTrue result ↔ SatIndexSum choice.now (V.point a.now) }
{
    adds_up(choice.picks.as_slice(), a.numerator(choice.z), a)
}
