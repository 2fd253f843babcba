//! Aims, and the forms that they come to.
ghost use Rattle.std.specs.Prelude.{◌≡◌, ◌∷◌, [], map, ℕ};
ghost use Rattle.sm_forms.specs.Meanings.{Meaning};
ghost use Rattle.sm_forms.specs.Forms.{IsFormOf};
ghost use Rattle.sm_syntax.specs.Expressions.{expression_of};
ghost use Rattle.sm_syntax.specs.Trees.{aim_of};
ghost use Rattle.sm_kinds.specs.Vars.{is_real_kind};
ghost use Rattle.sm_meaning.specs.Cases.{kind_at};
ghost use Rattle.sm_meaning.specs.Scopes.{count_of};
ghost use Rattle.sm_meaning.specs.Trials.{GoesThrough, ◌▸◌};
ghost use Rattle.sm_meaning.specs.Worths.{worth};
ghost use Rattle.sm_meaning.specs.ExpressionTrials.{expression_tried};
ghost use Rattle.sm_meaning.specs.Limits.{has_real};
ghost use Rattle.sm_meaning.specs.Goals.{aim_part, aim_sense, aim_worth, aims_tried};
ghost use Rattle.sm_meaning.specs.Places.{place_of};
ghost use Rattle.sm_goals.specs.Goals.{has_real_term, part_tried, aim_tried, IsAimForm, AreAimForms, no_real_tried};

use sm_expressions::expression;
use sm_flat::Sense;
use sm_forms::Form;
use sm_kinds::VarKind;
use sm_meaning::{ExpandRefusal, Wrong};
use sm_scopes::{Cases, Scope};
use sm_syntax::{Aim, Expr, Place};
use std::alloc::Global;

/// A form, and what is wanted of it.
#[derive(Drop)]
pub(crate) struct AimForm {
    pub sense: Sense,
    pub form: Form,
}

/// What is wanted.
fn sense(aim: &Aim) -> Sense
    ensures { result ≡ aim_sense (aim_of aim.now) }
{
    match aim {
        Aim::Minimise { .. } => Sense::Minimise,
        Aim::Maximise { .. } => Sense::Maximise,
    }
}

/// Of what it is wanted.
fn part<'t>(aim: &'t Aim) -> &'t Expr
    ensures { expression_of result.now ≡ aim_part (aim_of aim.now) }
{
    match aim {
        Aim::Minimise { expr, .. } => expr,
        Aim::Maximise { expr, .. } => expr,
    }
}

/// An expression with nothing bound around it.
fn evaluated<'t>(
    alloc: Global,
    scope: &Scope,
    visited: &mut u64,
    x: &'t Expr,
) -> Result<Form, ExpandRefusal>
    ensures { GoesThrough (expression_tried (expression_of x.now) scope.now []) visited.old visited.new
        (IsFormOf (count_of scope.now) (worth (expression_of x.now) scope.now.names [])) result }
{
    let outside = Cases::outside(alloc);
    expression(alloc, scope, &outside, visited, x)
}

/// Whether a variable is real.
fn is_real(scope: &Scope, var: u32) -> bool
    ensures { result ≡ is_real_kind (kind_at scope.now var) }
{
    matches!(scope.kind_of(var), VarKind::Real)
}

/// Whether some term is of a real variable.
fn has_real_term(scope: &Scope, terms: &[(u32, i64)]) -> bool
    ensures { result ≡ has_real_term scope.now terms.now }
{
    terms.iter().any(|t| is_real(scope, t.0))
}

/// Whether some real variable matters.
fn has_real(scope: &Scope, form: &Form) -> bool
    ensures { (g : Meaning) → IsFormOf (count_of scope.now) g form.now → result ≡ has_real scope.now (count_of scope.now) g }
{
    has_real_term(scope, form.terms())
}

/// Tries that no real variable matters to a form, of an expression at this place.
fn try_discrete(scope: &Scope, form: &Form, place: Place) -> Result<(), ExpandRefusal>
    ensures { (g : Meaning) → IsFormOf (count_of scope.now) g form.now → (count : ℕ) → GoesThrough (no_real_tried scope.now place g) count count (λ _. Unit {0}) result }
{
    if has_real(scope, form) {
        return Err(ExpandRefusal::at(place, Wrong::Kind));
    }
    Ok(())
}

/// The form of an aim before the last: no real variable matters to it.
fn discrete_form<'t>(
    alloc: Global,
    scope: &Scope,
    visited: &mut u64,
    x: &'t Expr,
) -> Result<Form, ExpandRefusal>
    ensures { GoesThrough (expression_tried (expression_of x.now) scope.now [] ▸ no_real_tried scope.now (place_of (expression_of x.now)) (worth (expression_of x.now) scope.now.names [])) visited.old visited.new
        (IsFormOf (count_of scope.now) (worth (expression_of x.now) scope.now.names [])) result }
{
    let form = evaluated(alloc, scope, visited, x)?;
    match try_discrete(scope, &form, x.place) {
        Ok(()) => Ok(form),
        Err(refusal) => {
            drop(form);
            Err(refusal)
        }
    }
}

/// The form of the part of an aim.
fn part_form<'t>(
    alloc: Global,
    scope: &Scope,
    visited: &mut u64,
    x: &'t Expr,
    is_last: bool,
) -> Result<Form, ExpandRefusal>
    ensures { GoesThrough (part_tried scope.now (expression_of x.now) is_last) visited.old visited.new
        (IsFormOf (count_of scope.now) (worth (expression_of x.now) scope.now.names [])) result }
{
    if is_last {
        return evaluated(alloc, scope, visited, x);
    }
    discrete_form(alloc, scope, visited, x)
}

/// The form of an aim.
fn aim_form<'t>(
    alloc: Global,
    scope: &Scope,
    visited: &mut u64,
    aim: &'t Aim,
    is_last: bool,
) -> Result<AimForm, ExpandRefusal>
    ensures { GoesThrough (aim_tried scope.now (aim_of aim.now) is_last) visited.old visited.new
        (IsAimForm scope.now (aim_of aim.now)) result }
{
    let form = part_form(alloc, scope, visited, part(aim), is_last)?;
    Ok(AimForm {
        sense: sense(aim),
        form,
    })
}

/// The forms of aims, in the order of the text.
///
/// # Errors
///
/// The first that is refused in the order of the text.
pub(crate) fn aim_forms<'t>(
    alloc: Global,
    scope: &Scope,
    visited: &mut u64,
    first: &'t Aim,
    more: &'t [Aim],
) -> Result<Vec<AimForm>, ExpandRefusal>
    ensures { GoesThrough (aims_tried scope.now (map aim_of (first.now ∷ more.now))) visited.old visited.new
        (λ fs. AreAimForms scope.now (map aim_of (first.now ∷ more.now)) fs.items) result }
{
    let mut forms = Vec::new(alloc);
    forms.push(aim_form(alloc, scope, visited, first, more.is_empty())?)?;
    let mut left = more.len();
    for aim in more {
        left -= 1;
        forms.push(aim_form(alloc, scope, visited, aim, left == 0)?)?;
    }
    Ok(forms)
}
