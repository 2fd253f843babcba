//! When: some literal is false, or a row holds.
ghost use Rattle.std.specs.Prelude.{◌≡◌, ◌≤◌, ◌+◌, ◌↔◌, List, IsTrue, IsSome, IfSome, true};
ghost use Rattle.sm_kinds.specs.declared.var.Var.{Var as Variable};
ghost use Rattle.sm_kinds.specs.Linear.{IsLinear};
ghost use Rattle.sm_kinds.specs.When.{IsWhen, when_size, EachWhenVar, all_true, SatWhen};

use crate::limits::{GREATEST_NUMBER, left_after};
use crate::linear::{self, LinRow};
use crate::literal::{Literal, is_literal, is_true};
use crate::logic::every_literal;
use crate::values::{Values, VarTest};
use crate::var::Var;

/// Whether the literals and the row are within the limits, and fit these variables.
pub fn fits(vars: &[Var], literals: &[Literal], row: &LinRow) -> bool
    ensures { IsTrue result ↔ IsWhen vars.now literals.now row.now }
{
    literals
        .iter()
        .all(|l| is_literal(vars, GREATEST_NUMBER, l))
        && linear::fits(vars, row)
}

/// What is left of a count without the size of the literals and the row.
pub fn spend(literals: &[Literal], row: &LinRow, left: u64) -> Option<u64>
    ensures variant { IsSome result ↔ (when_size literals.now row.now ≤ left) }
    ensures value { IfSome result (λ r. r + when_size literals.now row.now ≡ left) }
{
    let rest = left_after(left, literals.len())?;
    linear::spend(row, rest)
}

/// Whether each variable of the literals and of the row passes the test.
pub fn every_var<T: VarTest>(literals: &[Literal], row: &LinRow, test: &T) -> bool
    ensures { IsTrue result ↔ EachWhenVar (λ v. T.passing test.now v ≡ true) literals.now row.now }
{
    every_literal(literals, test) && linear::every_var(row, test)
}

fn all_true<V: Values>(literals: &[Literal], a: &V) -> bool
    ensures { result ≡ all_true (V.point a.now) literals.now }
{
    literals.iter().all(|l| is_true(l, a))
}

/// Whether some literal is false, or the row holds.
pub fn holds<V: Values>(literals: &[Literal], row: &LinRow, a: &V) -> bool
    requires { (vars : List Variable) × IsLinear vars row.now }
    ensures { IsTrue result ↔ SatWhen literals.now row.now (V.point a.now) }
{
    !all_true(literals, a) || linear::holds(row, a)
}
