//! The terms, literals and members of tables of all constraints.
ghost use Rattle.std.specs.Prelude.{◌≡◌, ◌≤◌, ◌+◌, ℕ};
ghost use Rattle.sm_kinds.specs.Limits.{most_total};
ghost use Rattle.sm_data.specs.declared.refusal.Counted.TheVariants as counted;
ghost use Rattle.sm_flat.specs.Forms.{size_of};
ghost use Rattle.sm_meaning.specs.Trials.{GoesThrough};
ghost use Rattle.sm_meaning.specs.Limits.{count_tried};

use crate::numbers::over;
use sm_data::Counted;
use sm_flat::{Form, spend};
use sm_kinds::MOST_TOTAL;
use sm_meaning::ExpandRefusal;

/// Tries the total of the constraints so far and of one more: what it is then.
///
/// # Errors
///
/// `Limit` where it is over its limit.
pub(crate) fn try_total(so_far: u64, form: &Form) -> Result<u64, ExpandRefusal>
    requires { so_far ≤ most_total }
    ensures { (count : ℕ) → GoesThrough (count_tried counted.Total most_total (so_far + size_of form.now)) count count (λ t. t ≡ so_far + size_of form.now) result }
{
    match spend(form, MOST_TOTAL - so_far) {
        Some(left) => Ok(MOST_TOTAL - left),
        None => Err(over(Counted::Total, MOST_TOTAL, u128::from(MOST_TOTAL) + 1)),
    }
}
