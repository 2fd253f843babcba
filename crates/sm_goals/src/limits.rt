//! The limits of goals.
ghost use Rattle.std.specs.Prelude.{◌≡◌, ℕ, List, map};
ghost use Rattle.sm_forms.specs.Meanings.{Meaning, constant_of};
ghost use Rattle.sm_kinds.specs.Limits.{greatest_number};
ghost use Rattle.sm_data.specs.declared.refusal.Counted.TheVariants as counted;
ghost use Rattle.sm_meaning.specs.Trials.{each_tried};
ghost use Rattle.sm_meaning.specs.Limits.{coefficients_tried, numbers_tried};
ghost use Rattle.sm_drafts.specs.Drafts.{Passes};
ghost use Rattle.sm_goals.specs.Goals.{AreFormsOf, limits_tried};

use crate::aim::AimForm;
use sm_data::Counted;
use sm_drafts::{try_bound, try_coefficients, try_count};
use sm_kinds::MOST_GOALS;
use sm_meaning::ExpandRefusal;

/// Tries the coefficients of all forms.
fn try_all_coefficients(forms: &[AimForm]) -> Result<(), ExpandRefusal>
    ensures { (n : ℕ) (gs : List Meaning) → AreFormsOf n gs forms.now → Passes (each_tried (coefficients_tried n) gs) result }
{
    for aimed in forms {
        try_coefficients(&aimed.form)?;
    }
    Ok(())
}

/// Tries the constants of all forms.
fn try_constants(forms: &[AimForm]) -> Result<(), ExpandRefusal>
    ensures { (n : ℕ) (gs : List Meaning) → AreFormsOf n gs forms.now → Passes (numbers_tried counted.Bound greatest_number (map constant_of gs)) result }
{
    for aimed in forms {
        try_bound(&aimed.form.constant)?;
    }
    Ok(())
}

/// Tries the coefficients, the constants, and how many forms there are.
pub(crate) fn try_limits(forms: &[AimForm]) -> Result<(), ExpandRefusal>
    ensures { (n : ℕ) (gs : List Meaning) → AreFormsOf n gs forms.now → Passes (limits_tried n gs) result }
{
    try_all_coefficients(forms)?;
    try_constants(forms)?;
    try_count(Counted::Objectives, MOST_GOALS, forms.len())
}
