//! Forms of numbers and variables, their sums and products, each with no number above its limit.
ghost use Rattle.std.specs.Prelude.{◌≡◌, ◌<◌, ◌≤◌, ℕ, true, ◌⊎◌, unsigned_abs, IfOk, IfErr};
ghost use Rattle.sm_forms.specs.Meanings.{Meaning, greatest_value, large_value, nowhere, is_constant};
ghost use Rattle.sm_forms.specs.Forms.{IsFormOf, Comes};
ghost use Rattle.sm_meaning.specs.Scopes.{Scope, count_of};
ghost use Rattle.sm_meaning.specs.Trials.{GoesThrough, IsStopped, visit};
ghost use Rattle.sm_meaning.specs.Worths.{whole, value_of, negated_if, with_addend, times_of};
ghost use Rattle.sm_meaning.specs.ExpressionTrials.{value_tried, whole_tried};
ghost use Rattle.sm_expressions.specs.Values.{refusal_for, IsValue};

use sm_data::Counted;
use sm_forms::{Form, FormRefusal};
use sm_meaning::{ExpandRefusal, Wrong};
use sm_syntax::{Place, Sign};
use std::alloc::Global;

/// Tuples that are visited in a whole expansion.
const MOST_TUPLES: u64 = 67_108_864;

/// What a form that isn't made is refused for.
fn refusal_for(error: FormRefusal) -> ExpandRefusal
    ensures { result ≡ refusal_for error }
{
    match error {
        FormRefusal::TooLarge { found } => ExpandRefusal::Limit {
            what: Counted::Value,
            found: found.min(i128::MAX as u128) as i128,
            bound: 1 << 62,
        },
        FormRefusal::OutOfMemory => ExpandRefusal::OutOfMemory,
    }
}

/// The form, or what it is refused for.
fn made(form: Result<Form, FormRefusal>) -> Result<Form, ExpandRefusal>
    ensures { (s : Scope) (g : Meaning) → Comes (large_value (count_of s) g) (IsFormOf (count_of s) g) form → IsValue s g result }
{
    match form {
        Ok(form) => Ok(form),
        Err(error) => Err(refusal_for(error)),
    }
}

/// The number, where it isn't too large.
fn within(number: i128) -> Result<i64, ExpandRefusal>
    ensures same { IfOk result (λ z. z ≡ number) }
    ensures small { IfOk result (λ z. unsigned_abs z ≤ greatest_value) }
    ensures large { IfErr result (λ e. (s : Scope) (count : ℕ) → IsStopped e (value_tried s (whole number) count)) }
{
    let found = number.unsigned_abs();
    if found > 1 << 62 {
        return Err(refusal_for(FormRefusal::TooLarge { found }));
    }
    Ok(number as i64)
}

/// A number.
pub(crate) fn number_form(alloc: Global, number: i128) -> Result<Form, ExpandRefusal>
    ensures { (s : Scope) → IsValue s (whole number) result }
{
    Ok(Form::number(alloc, within(number)?))
}

/// A variable.
pub(crate) fn variable_form(alloc: Global, var: u32) -> Result<Form, ExpandRefusal>
    ensures { (s : Scope) → var < count_of s → IsValue s (value_of var) result }
{
    Ok(Form::variable(alloc, var)?)
}

/// The form, or its negation.
pub(crate) fn negated(is_negated: bool, form: Form) -> Result<Form, ExpandRefusal>
    ensures { (s : Scope) (g : Meaning) → IsFormOf (count_of s) g form → IsValue s (negated_if is_negated g) result }
{
    if is_negated {
        made(form.scaled(-1))
    } else {
        Ok(form)
    }
}

/// A sum with one more term.
///
/// # Errors
///
/// `Limit` where a number of it would be too large.
pub fn added(alloc: Global, sum: Form, sign: Sign, term: Form) -> Result<Form, ExpandRefusal>
    ensures { (s : Scope) (g h : Meaning) → IsFormOf (count_of s) g sum → IsFormOf (count_of s) h term →
        IsValue s (with_addend g sign h) result }
{
    match sign {
        Sign::Plus => made(sum.plus(alloc, term)),
        Sign::Minus => made(sum.minus(alloc, term)),
    }
}

/// The product of two forms, in one of which no variable matters.
pub(crate) fn multiplied(left: Form, right: Form) -> Result<Form, ExpandRefusal>
    ensures { (s : Scope) (g h : Meaning) → IsFormOf (count_of s) g left → IsFormOf (count_of s) h right →
        (is_constant (count_of s) g ≡ true) ⊎ (is_constant (count_of s) h ≡ true) → IsValue s (times_of g h) result }
{
    if left.is_constant() {
        let by = left.constant();
        return made(right.scaled(by));
    }
    let by = right.constant();
    made(left.scaled(by))
}

/// The whole number that a form is, of an expression at this place.
pub(crate) fn whole(form: &Form, place: Place) -> Result<i64, ExpandRefusal>
    ensures { (s : Scope) (g : Meaning) → IsFormOf (count_of s) g form.now →
        (count : ℕ) → GoesThrough (whole_tried s place g) count count (λ z. z ≡ g nowhere) result }
{
    if form.is_constant() {
        Ok(form.constant())
    } else {
        Err(ExpandRefusal::at(place, Wrong::Whole))
    }
}

/// Counts one more tuple.
///
/// # Errors
///
/// `Limit` where there are more than a whole expansion may visit.
pub fn visit(visited: &mut u64) -> Result<(), ExpandRefusal>
    ensures { GoesThrough visit visited.old visited.new (λ _. Unit {0}) result }
{
    if *visited < MOST_TUPLES {
        *visited += 1;
        return Ok(());
    }
    Err(ExpandRefusal::Limit {
        what: Counted::Tuples,
        found: i128::from(MOST_TUPLES) + 1,
        bound: i128::from(MOST_TUPLES),
    })
}
