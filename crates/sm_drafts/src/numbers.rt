//! Numbers and counts that are over a limit.
ghost use Rattle.std.specs.Prelude.{◌≡◌, ◌≤◌, ℕ, unsigned_abs, OnOk};
ghost use Rattle.sm_kinds.specs.Limits.{most_total};
ghost use Rattle.sm_forms.specs.Meanings.{Meaning};
ghost use Rattle.sm_forms.specs.Forms.{IsFormOf};
ghost use Rattle.sm_meaning.specs.Refusals.{over, number_over, count_over};
ghost use Rattle.sm_meaning.specs.Trials.{tried};
ghost use Rattle.sm_meaning.specs.Limits.{coefficients_tried, count_tried, numbers_tried};
ghost use Rattle.sm_drafts.specs.Drafts.{Passes};

use sm_data::Counted;
use sm_forms::Form;
use sm_kinds::GREATEST_NUMBER;
use sm_meaning::ExpandRefusal;

/// What is found is over its limit. At most 2^127 - 1 of it is told.
pub(crate) fn over(what: Counted, bound: u64, found: u128) -> ExpandRefusal
    ensures { result ≡ over what bound found }
{
    ExpandRefusal::Limit {
        what,
        found: found.min(i128::MAX as u128) as i128,
        bound: i128::from(bound),
    }
}

/// Tries that a number is within the limit, in absolute value.
///
/// # Errors
///
/// `Limit`, with the number itself without its sign, where it is above.
pub fn try_number(what: Counted, bound: u64, number: i128) -> Result<(), ExpandRefusal>
    ensures tried { Passes (tried (number_over what bound number)) result }
    ensures small { OnOk result (unsigned_abs number ≤ bound) }
{
    let found = number.unsigned_abs();
    if found > u128::from(bound) {
        return Err(over(what, bound, found));
    }
    Ok(())
}

/// Tries that a number of the text is within the limit, in absolute value.
pub(crate) fn try_small(what: Counted, bound: u64, number: &i64) -> Result<(), ExpandRefusal>
    ensures tried { Passes (tried (number_over what bound number.now)) result }
    ensures small { OnOk result (unsigned_abs number.now ≤ bound) }
{
    let found = number.unsigned_abs();
    if found > bound {
        return Err(over(what, bound, u128::from(found)));
    }
    Ok(())
}

/// Tries each number in its turn.
pub(crate) fn try_numbers(what: Counted, bound: u64, numbers: &[i64]) -> Result<(), ExpandRefusal>
    ensures { Passes (numbers_tried what bound numbers.now) result }
{
    for number in numbers {
        try_small(what, bound, number)?;
    }
    Ok(())
}

/// Tries that there are no more than the limit.
///
/// # Errors
///
/// `Limit`, with one more than the limit, where there are more.
pub fn try_count(what: Counted, bound: usize, count: usize) -> Result<(), ExpandRefusal>
    requires { bound ≤ most_total }
    ensures { Passes (count_tried what bound count) result }
{
    if count > bound {
        return Err(over(what, bound as u64, bound as u128 + 1));
    }
    Ok(())
}

/// Tries the coefficients of a form.
///
/// # Errors
///
/// `Limit` of the first that is over its limit.
pub fn try_coefficients(form: &Form) -> Result<(), ExpandRefusal>
    ensures { (n : ℕ) (g : Meaning) → IsFormOf n g form.now → Passes (coefficients_tried n g) result }
{
    match form.large_coefficient(GREATEST_NUMBER) {
        Some(found) => Err(over(Counted::Coefficient, GREATEST_NUMBER, u128::from(found))),
        None => Ok(()),
    }
}
