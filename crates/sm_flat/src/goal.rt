//! Goals and their values.
ghost use Rattle.std.specs.Prelude.{◌≡◌, ◌≤◌, ◌<◌, ◌+◌, ◌^◌, All, length, unsigned_abs};
ghost use Rattle.sm_kinds.specs.Limits.{IsSmall, most_goal_terms};
ghost use Rattle.sm_flat.specs.Assignments.{point_of};
ghost use Rattle.sm_flat.specs.Goals.{goal_at, worth};

use crate::assignment::Assignment;
use crate::flat::Flat;
use sm_kinds::{scaled, sum_at};
use sqlite_items::Items;

/// What is wanted of a goal's value.
#[derive(Clone, Copy, Debug, PartialEq, Eq)]
pub enum Sense {
    Minimise,
    Maximise,
    /// Any solution will do; such a goal stands alone, without terms and with the constant 0.
    Satisfy,
}

/// A goal: the sum of the terms and the constant.
#[derive(Drop)]
pub struct Goal {
    pub sense: Sense,
    /// Variables by number with their coefficients, in increasing order of variable; no coefficient is 0.
    pub terms: Items<(u32, i64)>,
    pub constant: i64,
}

/// The value of a goal, times the denominator.
fn worth(goal: &Goal, a: &Assignment) -> i128
    requires few { length goal.now.terms ≤ most_goal_terms }
    requires small { All (λ t. IsSmall t.1) goal.now.terms }
    requires constant { IsSmall goal.now.constant }
    ensures value { result ≡ worth goal.now (point_of a.now) }
    ensures bound { unsigned_abs result ≤ 2 ^ 126 + 2 ^ 83 }
{
    sum_at(goal.terms.as_slice(), a) + scaled(goal.constant, a)
}

/// The value of the goal of a level, from 0, at an assignment, in the goal's own sense: numerator and denominator.
pub fn value(flat: &Flat, level: u32, a: &Assignment) -> (i128, i128)
    requires { level < length flat.now.goals }
    ensures numerator { result.0 ≡ worth (goal_at flat.now level) (point_of a.now) }
    ensures denominator { result.1 ≡ a.now.denominator }
    ensures bound { unsigned_abs result.0 ≤ 2 ^ 126 + 2 ^ 83 }
{
    let goal = &flat.goals()[level as usize];
    (worth(goal, a), i128::from(a.denominator()))
}
