//! Assign: each variable chooses a member of its table, no two at the same place, and z equals the sum of these.
ghost use Rattle.std.specs.Prelude.{◌≡◌, ◌≤◌, ◌<◌, ◌+◌, ◌↔◌, ℕ, List, IsTrue, IsSome, IfSome, true, length, AllPairs};
ghost use Rattle.sm_kinds.specs.declared.var.Var.{Var as Variable};
ghost use Rattle.sm_kinds.specs.Alldiff.{Differ};
ghost use Rattle.sm_kinds.specs.Choices.{variable_at};
ghost use Rattle.sm_kinds.specs.Assign.{IsAssign, assign_size, EachAssignVar, SatAssign};

use crate::choice::{Choice, adds_up, every_choice_var, is_choice, spend_choice};
use crate::values::{Values, VarTest};
use crate::var::Var;
use sqlite_items::Items;

/// Whether the parts are within the limits, and fit these variables.
pub fn fits(vars: &[Var], choice: &Choice) -> bool
    ensures { IsTrue result ↔ IsAssign vars.now choice.now }
{
    is_choice(vars, choice)
}

/// What is left of a count without the members of the tables.
pub fn spend(choice: &Choice, left: u64) -> Option<u64>
    ensures variant { IsSome result ↔ (assign_size choice.now ≤ left) }
    ensures value { IfSome result (λ r. r + assign_size choice.now ≡ left) }
{
    spend_choice(choice, left)
}

/// Whether each variable passes the test.
pub fn every_var<T: VarTest>(choice: &Choice, test: &T) -> bool
    ensures { IsTrue result ↔ EachAssignVar (λ v. T.passing test.now v ≡ true) choice.now }
{
    every_choice_var(choice, test)
}

/// Whether the value of variable i differs from that of each later one.
fn differs_from_later<V: Values>(picks: &[(u32, Items<i64>)], i: usize, a: &V) -> bool
    requires { i < length picks.now }
    ensures { IsTrue result ↔ ((j : ℕ) → i < j → j < length picks.now → Differ (V.point a.now) (variable_at picks.now i) (variable_at picks.now j)) }
{
    let value = a.numerator(picks[i].0);
    for j in i + 1..picks.len() {
        if value == a.numerator(picks[j].0) {
            return false;
        }
    }
    true
}

/// Whether the values of different variables differ.
fn all_differ<V: Values>(picks: &[(u32, Items<i64>)], a: &V) -> bool
    ensures { IsTrue result ↔ AllPairs (λ p q. Differ (V.point a.now) p.0 q.0) picks.now }
{
    for i in 0..picks.len() {
        if !differs_from_later(picks, i, a) {
            return false;
        }
    }
    true
}

/// Whether each variable chooses a member of its table, no two at the same place, and z equals the sum of these.
pub fn holds<V: Values>(choice: &Choice, a: &V) -> bool
    requires { (vars : List Variable) × IsAssign vars choice.now }
    ensures { IsTrue result ↔ SatAssign choice.now (V.point a.now) }
{
    let picks = choice.picks.as_slice();
    all_differ(picks, a) && adds_up(picks, a.numerator(choice.z), a)
}
