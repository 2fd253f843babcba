//! The roles in which an expression stands.
ghost use Rattle.std.specs.Prelude.{◌≡◌, ◌<◌, ℕ};
ghost use Rattle.sm_syntax.specs.Expressions.{Expression, expression_of};
ghost use Rattle.sm_meaning.specs.Scopes as meaning;
ghost use Rattle.sm_meaning.specs.Scopes.{Tuple, count_of};
ghost use Rattle.sm_meaning.specs.Trials.{Trial, GoesThrough};
ghost use Rattle.sm_meaning.specs.Cases.{number_of, number_tried, amount_tried, variable_at, single_tried, discrete_tried, set_variable_tried, entry_of, entry_tried};
ghost use Rattle.sm_forms.specs.Meanings.{Meaning};
ghost use Rattle.sm_forms.specs.Forms.{IsFormOf};
ghost use Rattle.sm_parts.specs.Entries.{behind_entry, entry_meant};

use sm_expressions::{expression, number};
use sm_flat::Entry;
use sm_forms::Form;
use sm_kinds::VarKind;
use sm_meaning::{ExpandRefusal, Wrong};
use sm_scopes::{Cases, Scope};
use sm_syntax::{Expr, Place};
use std::alloc::Global;

/// A whole number that isn't below 0.
///
/// # Errors
///
/// `Value` where it is below 0, and what is refused before that.
pub fn amount<'t>(
    alloc: Global,
    scope: &Scope,
    cases: &Cases<'t>,
    visited: &mut u64,
    x: &'t Expr,
) -> Result<i64, ExpandRefusal>
    ensures { GoesThrough (amount_tried scope.now (expression_of x.now) cases.now.tuple) visited.old visited.new
        (λ z. z ≡ number_of scope.now (expression_of x.now) cases.now.tuple) result }
{
    let number = number(alloc, scope, cases, visited, x)?;
    if number < 0 {
        return Err(ExpandRefusal::at(x.place, Wrong::Value));
    }
    Ok(number)
}

/// A single variable.
fn single<'t>(
    alloc: Global,
    scope: &Scope,
    cases: &Cases<'t>,
    visited: &mut u64,
    x: &'t Expr,
) -> Result<u32, ExpandRefusal>
    ensures { GoesThrough (single_tried scope.now (expression_of x.now) cases.now.tuple) visited.old visited.new
        (λ v. v ≡ variable_at scope.now (expression_of x.now) cases.now.tuple) result }
{
    let form = expression(alloc, scope, cases, visited, x)?;
    match form.single() {
        Some(var) => Ok(var),
        None => Err(ExpandRefusal::at(x.place, Wrong::Variable)),
    }
}

/// A single variable with whole values.
///
/// # Errors
///
/// `Variable` where it isn't a single variable, `Kind` for a real one, and what is refused before that.
pub fn discrete<'t>(
    alloc: Global,
    scope: &Scope,
    cases: &Cases<'t>,
    visited: &mut u64,
    x: &'t Expr,
) -> Result<u32, ExpandRefusal>
    ensures { GoesThrough (discrete_tried scope.now (expression_of x.now) cases.now.tuple) visited.old visited.new
        (λ v. v ≡ variable_at scope.now (expression_of x.now) cases.now.tuple) result }
{
    let var = single(alloc, scope, cases, visited, x)?;
    match scope.kind_of(var) {
        VarKind::Real => Err(ExpandRefusal::at(x.place, Wrong::Kind)),
        _ => Ok(var),
    }
}

/// A single variable with a set of values.
///
/// # Errors
///
/// `Variable` where it isn't a single variable, `Kind` for one of another kind, and what is refused before that.
pub fn set_variable<'t>(
    alloc: Global,
    scope: &Scope,
    cases: &Cases<'t>,
    visited: &mut u64,
    x: &'t Expr,
) -> Result<u32, ExpandRefusal>
    ensures { GoesThrough (set_variable_tried scope.now (expression_of x.now) cases.now.tuple) visited.old visited.new
        (λ v. v ≡ variable_at scope.now (expression_of x.now) cases.now.tuple) result }
{
    let var = single(alloc, scope, cases, visited, x)?;
    match scope.kind_of(var) {
        VarKind::Set => Ok(var),
        _ => Err(ExpandRefusal::at(x.place, Wrong::Kind)),
    }
}

/// The entry that a form is, of an expression at this place.
fn entry_in(scope: &Scope, form: &Form, place: Place) -> Result<Entry, ExpandRefusal>
    ensures { (g : Meaning) → IsFormOf (count_of scope.now) g form.now → (count : ℕ) → GoesThrough (behind_entry scope.now place g) count count
        (λ v. v ≡ entry_meant scope.now g) result }
{
    if form.is_constant() {
        return Ok(Entry::Number(form.constant()));
    }
    match form.single() {
        None => Err(ExpandRefusal::at(place, Wrong::Variable)),
        Some(var) => match scope.kind_of(var) {
            VarKind::Real => Err(ExpandRefusal::at(place, Wrong::Kind)),
            _ => Ok(Entry::Variable(var)),
        },
    }
}

/// A whole number, or a single variable with whole values.
fn entry<'t>(
    alloc: Global,
    scope: &Scope,
    cases: &Cases<'t>,
    visited: &mut u64,
    x: &'t Expr,
) -> Result<Entry, ExpandRefusal>
    ensures { GoesThrough (entry_tried scope.now (expression_of x.now) cases.now.tuple) visited.old visited.new
        (λ v. v ≡ entry_of scope.now (expression_of x.now) cases.now.tuple) result }
{
    let form = expression(alloc, scope, cases, visited, x)?;
    entry_in(scope, &form, x.place)
}

/// A role in which each expression of a list stands.
pub trait Role<T: Drop> {
    /// What is tried of the expression.
    ghost tried: { meaning.Scope → Expression → Tuple → Trial };

    /// What it is.
    ghost meant: { meaning.Scope → Expression → Tuple → T };

    /// Evaluates the expression.
    fn take<'t>(
        alloc: Global,
        scope: &Scope,
        cases: &Cases<'t>,
        visited: &mut u64,
        x: &'t Expr,
    ) -> Result<T, ExpandRefusal>
        ensures { GoesThrough (tried scope.now (expression_of x.now) cases.now.tuple) visited.old visited.new
            (λ v. v ≡ meant scope.now (expression_of x.now) cases.now.tuple) result };
}

/// Whole numbers.
pub struct Numbers;

/// Whole numbers that aren't below 0.
pub struct Amounts;

/// Single variables with sets of values.
pub struct SetVariables;

/// Whole numbers and single variables with whole values.
pub struct Entries;

impl Role<i64> for Numbers {
    ghost tried = { number_tried };

    ghost meant = { number_of };

    fn take<'t>(
        alloc: Global,
        scope: &Scope,
        cases: &Cases<'t>,
        visited: &mut u64,
        x: &'t Expr,
    ) -> Result<i64, ExpandRefusal> {
        number(alloc, scope, cases, visited, x)
    }
}

impl Role<i64> for Amounts {
    ghost tried = { amount_tried };

    ghost meant = { number_of };

    fn take<'t>(
        alloc: Global,
        scope: &Scope,
        cases: &Cases<'t>,
        visited: &mut u64,
        x: &'t Expr,
    ) -> Result<i64, ExpandRefusal> {
        amount(alloc, scope, cases, visited, x)
    }
}

impl Role<u32> for SetVariables {
    ghost tried = { set_variable_tried };

    ghost meant = { variable_at };

    fn take<'t>(
        alloc: Global,
        scope: &Scope,
        cases: &Cases<'t>,
        visited: &mut u64,
        x: &'t Expr,
    ) -> Result<u32, ExpandRefusal> {
        set_variable(alloc, scope, cases, visited, x)
    }
}

impl Role<Entry> for Entries {
    ghost tried = { entry_tried };

    ghost meant = { entry_of };

    fn take<'t>(
        alloc: Global,
        scope: &Scope,
        cases: &Cases<'t>,
        visited: &mut u64,
        x: &'t Expr,
    ) -> Result<Entry, ExpandRefusal> {
        entry(alloc, scope, cases, visited, x)
    }
}
