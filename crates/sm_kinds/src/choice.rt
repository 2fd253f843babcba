//! Choices: variables that choose a member of a table each, and the sum of what they choose.
ghost use Rattle.std.specs.Prelude.{◌≡◌, ◌≤◌, ◌<◌, ◌+◌, ◌^◌, ◌↔◌, ℕ, ℤ, pos, List, ◌∷◌, IsTrue, IsSome, IfSome, true, length, unsigned_abs};
ghost use Rattle.sm_kinds.specs.Limits.{most_terms};
ghost use Rattle.sm_kinds.specs.Points.{HasValue};
ghost use Rattle.sm_kinds.specs.Choices.{IsPick, IsChoice, choice_size, EachChoiceVar, AddUpTo};

use crate::limits::{MOST_MEMBERS, MOST_TERMS, are_small, left_after};
use crate::values::{Values, VarTest, place, scaled};
use crate::var::{Var, is_discrete, is_set};
use sqlite_items::Items;

/// Variables with a table each, from which a variable's value chooses the member of that number, and a variable `z` that is
/// to have the sum of what they choose.
#[derive(Drop)]
pub struct Choice {
    pub z: u32,
    pub picks: Items<(u32, Items<i64>)>,
}

fn is_pick(vars: &[Var], pick: &(u32, Items<i64>)) -> bool
    ensures { IsTrue result ↔ IsPick vars.now pick.now }
{
    let table = pick.1.as_slice();
    is_set(vars, pick.0) && table.len() <= MOST_MEMBERS && are_small(table)
}

/// Whether the parts are within the limits, and fit these variables.
pub(crate) fn is_choice(vars: &[Var], choice: &Choice) -> bool
    ensures { IsTrue result ↔ IsChoice vars.now choice.now }
{
    let picks = choice.picks.as_slice();
    picks.len() <= MOST_TERMS
        && picks.iter().all(|p| is_pick(vars, p))
        && is_discrete(vars, choice.z)
}

/// What is left of a count without the members of the tables.
pub(crate) fn spend_choice(choice: &Choice, left: u64) -> Option<u64>
    ensures variant { IsSome result ↔ (choice_size choice.now ≤ left) }
    ensures value { IfSome result (λ r. r + choice_size choice.now ≡ left) }
{
    let mut rest = left;
    for pick in choice.picks.as_slice() {
        rest = left_after(rest, pick.1.len())?;
    }
    Some(rest)
}

/// Whether each variable of the parts passes the test.
pub(crate) fn every_choice_var<T: VarTest>(choice: &Choice, test: &T) -> bool
    ensures { IsTrue result ↔ EachChoiceVar (λ v. T.passing test.now v ≡ true) choice.now }
{
    test.test(choice.z) && choice.picks.as_slice().iter().all(|p| test.test(p.0))
}

/// What is left of a total without the member of the table that the variable chooses; none where it chooses none.
pub(crate) fn without_chosen<V: Values>(var: u32, table: &[i64], total: i128, a: &V) -> Option<i128>
    requires { unsigned_abs total ≤ 2 ^ 126 }
    ensures variant { IsSome result ↔ ((j : ℕ) × (j < length table.now) × HasValue (V.point a.now) var (pos j)) }
    ensures value { IfSome result (λ r. (ps : List (ℕ × List ℤ)) → AddUpTo (V.point a.now) ps r ↔ AddUpTo (V.point a.now) ((var, table.now) ∷ ps) total) }
    ensures bound { IfSome result (λ r. unsigned_abs r ≤ unsigned_abs total + 2 ^ 115) }
{
    let j = place(a, var, table.len())?;
    Some(total - scaled(table[j], a))
}

/// Whether each variable chooses a member of its table, and these add up to the total, which is times the denominator.
pub(crate) fn adds_up<V: Values>(picks: &[(u32, Items<i64>)], total: i128, a: &V) -> bool
    requires few { length picks.now ≤ most_terms }
    requires room { unsigned_abs total ≤ 2 ^ 120 }
    ensures { IsTrue result ↔ AddUpTo (V.point a.now) picks.now total }
{
    let mut rest = total;
    for pick in picks {
        match without_chosen(pick.0, pick.1.as_slice(), rest, a) {
            Some(left) => rest = left,
            None => return false,
        }
    }
    rest == 0
}
