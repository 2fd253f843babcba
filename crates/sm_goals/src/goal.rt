//! Goals.
ghost use Rattle.std.specs.Prelude.{◌≡◌, ◌∷◌, [], map, IfOk};
ghost use Rattle.sm_syntax.specs.declared.place.Place.{Place};
ghost use Rattle.sm_syntax.specs.Trees as plain;
ghost use Rattle.sm_syntax.specs.Trees.{aim_of, goal_of};
ghost use Rattle.sm_meaning.specs.Scopes as meaning;
ghost use Rattle.sm_meaning.specs.Trials.{GoesThrough};
ghost use Rattle.sm_meaning.specs.Goals.{goal_tried};
ghost use Rattle.sm_goals.specs.Goals.{AreGoalsOf, goal_in};

use crate::aim::{AimForm, aim_forms};
use crate::limits::try_limits;
use sm_flat::{Goal, Sense};
use sm_forms::Form;
use sm_meaning::ExpandRefusal;
use sm_scopes::Scope;
use sm_syntax::Aim;
use std::alloc::{AllocError, Global};

/// The goal of a form. The terms stay as they lie in memory.
fn goal_in(aimed: AimForm) -> Goal
    ensures { result ≡ goal_in aimed }
{
    let AimForm { sense, form } = aimed;
    let constant = form.constant;
    Goal {
        sense,
        terms: form.into_terms(),
        constant,
    }
}

/// The goals of forms, in their order.
fn goals_in(alloc: Global, forms: Vec<AimForm>) -> Result<Vec<Goal>, AllocError>
    ensures { IfOk result (λ gs. gs.items ≡ map goal_in forms.items) }
{
    let mut goals = Vec::new(alloc);
    for aimed in forms {
        goals.push(goal_in(aimed))?;
    }
    Ok(goals)
}

/// The goal that any solution will do for: it has no terms.
fn any_solution(alloc: Global) -> Result<Vec<Goal>, AllocError>
    ensures { IfOk result (λ gs. (s : meaning.Scope) (p : Place) → AreGoalsOf s (plain.satisfy p) gs.items) }
{
    let mut goals = Vec::new(alloc);
    goals.push(goal_in(AimForm {
        sense: Sense::Satisfy,
        form: Form::number(alloc, 0),
    }))?;
    Ok(goals)
}

/// The goals of aims, in the order of their rank.
fn aim_goals<'t>(
    alloc: Global,
    scope: &Scope,
    visited: &mut u64,
    first: &'t Aim,
    more: &'t [Aim],
) -> Result<Vec<Goal>, ExpandRefusal>
    ensures { (p : Place) → GoesThrough (goal_tried scope.now (plain.aims p (aim_of first.now) (map aim_of more.now))) visited.old visited.new
        (λ gs. AreGoalsOf scope.now (plain.aims p (aim_of first.now) (map aim_of more.now)) gs.items) result }
{
    let forms = aim_forms(alloc, scope, visited, first, more)?;
    if let Err(refusal) = try_limits(forms.as_slice()) {
        drop(forms);
        return Err(refusal);
    }
    Ok(goals_in(alloc, forms)?)
}

/// The goals of a text.
///
/// # Errors
///
/// The first that is refused: the aims in the order of the text, where a real variable may matter to the last aim alone,
/// and then their coefficients, their constants, and how many they are.
pub fn goals<'t>(
    alloc: Global,
    scope: &Scope,
    visited: &mut u64,
    goal: &'t sm_syntax::Goal,
) -> Result<Vec<Goal>, ExpandRefusal>
    ensures { GoesThrough (goal_tried scope.now (goal_of goal.now)) visited.old visited.new (λ gs. AreGoalsOf scope.now (goal_of goal.now) gs.items) result }
{
    match goal {
        sm_syntax::Goal::Satisfy { .. } => Ok(any_solution(alloc)?),
        sm_syntax::Goal::Aims { first, more, .. } => {
            aim_goals(alloc, scope, visited, first, more.as_slice())
        }
    }
}
