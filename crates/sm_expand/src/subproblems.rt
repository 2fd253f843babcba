//! Real variables stand in constraints of one subproblem, or of none.
ghost use Rattle.std.specs.Prelude.{◌≡◌, ℕ, is_some};
ghost use Rattle.std.specs.List.{list_any};
ghost use Rattle.sm_kinds.specs.Vars.{is_real_kind};
ghost use Rattle.sm_meaning.specs.Trials.{GoesThrough};
ghost use Rattle.sm_meaning.specs.Expansions.{Expansion};
ghost use Rattle.sm_meaning.specs.Models.{same_sub, is_torn, benders_tried};
ghost use Rattle.sm_declarations.specs.Making.{IsMakingOf, IsOfSome};
ghost use Rattle.sm_expand.specs.Subproblems.{has_term, stands_in_form, subs_in};

use sm_declarations::Making;
use sm_flat::{Constraint, Form, Var, VarKind};
use sm_meaning::{ExpandRefusal, Wrong};

/// Whether a variable has a term.
fn has_term(var: usize, terms: &[(u32, i64)]) -> bool
    ensures { result ≡ has_term var terms.now }
{
    terms.iter().any(|t| t.0 as usize == var)
}

/// Whether a variable stands in a row.
fn stands_in(var: usize, form: &Form) -> bool
    ensures { result ≡ stands_in_form var form.now }
{
    match form {
        Form::Linear(row) => has_term(var, row.terms.as_slice()),
        Form::When { row, .. } => has_term(var, row.terms.as_slice()),
        _ => false,
    }
}

/// Whether two constraints are of one subproblem, or of none.
fn same_sub(left: Option<u32>, right: Option<u32>) -> bool
    ensures { result ≡ same_sub left right }
{
    match (left, right) {
        (None, None) => true,
        (Some(left), Some(right)) => left == right,
        _ => false,
    }
}

/// Whether the constraints that have a variable are of a subproblem and of another, or of none.
fn is_torn(var: usize, constraints: &[Constraint]) -> bool
    ensures { result ≡ is_torn (subs_in var constraints.now) }
{
    let mut first = None;
    for constraint in constraints {
        if stands_in(var, &constraint.form) {
            match first {
                None => first = Some(constraint.tags.sub),
                Some(sub) => {
                    if !same_sub(sub, constraint.tags.sub) {
                        return true;
                    }
                }
            }
        }
    }
    false
}

/// Whether some constraint is of a subproblem.
fn has_subproblem(constraints: &[Constraint]) -> bool
    ensures { result ≡ list_any (λ c. is_some c.tags.sub) constraints.now }
{
    constraints.iter().any(|c| c.tags.sub.is_some())
}

/// Whether a variable is real.
fn is_real(var: &Var) -> bool
    ensures { result ≡ is_real_kind var.now.kind }
{
    matches!(var.kind, VarKind::Real)
}

/// Tries each real variable, in the order of the text.
///
/// # Errors
///
/// `Benders` at the name of the first that stands in constraints of a subproblem and in others.
pub(crate) fn try_subproblems(made: &Making) -> Result<(), ExpandRefusal>
    requires { IsOfSome made.now }
    ensures { (e : Expansion) (count : ℕ) → IsMakingOf e made.now →
        GoesThrough (benders_tried e.posts 0 e.variables) count count (λ _. Unit {0}) result }
{
    let vars = made.vars.as_slice();
    let constraints = made.constraints.as_slice();
    if !has_subproblem(constraints) {
        return Ok(());
    }
    for var in 0..vars.len() {
        if is_real(&vars[var]) && is_torn(var, constraints) {
            return Err(ExpandRefusal::at(made.places[var], Wrong::Benders));
        }
    }
    Ok(())
}
