//! The numbers of a draft, and how many terms it has.
ghost use Rattle.std.specs.Prelude.{◌≡◌, ◌≤◌, ◌++◌, ◌∷◌, [], ℕ, map, unsigned_abs, OnOk, if◌then◌else◌};
ghost use Rattle.sm_kinds.specs.declared.literal.Literal.{Literal as Condition};
ghost use Rattle.sm_kinds.specs.Limits.{greatest_number, most_constraints, most_terms};
ghost use Rattle.sm_data.specs.declared.refusal.Counted.TheVariants as counted;
ghost use Rattle.sm_forms.specs.Meanings.{Meaning, constant_of};
ghost use Rattle.sm_forms.specs.Forms.{IsFormOf};
ghost use Rattle.sm_meaning.specs.Demands.{Demand};
ghost use Rattle.sm_meaning.specs.Limits.{row_coefficients_tried, bounds_of, entries_of, count_tried, term_count, terms_tried};
ghost use Rattle.sm_drafts.specs.Drafts.{IsDraftOf, HasSmallNumbers, Passes, bounds_tried, entries_tried, front_tried};

use crate::bounds::{try_bound, try_conditions, try_kind_bounds};
use crate::draft::Draft;
use crate::entries::try_kind_entries;
use crate::literals::try_formula;
use crate::numbers::{try_coefficients, try_count};
use crate::terms::try_kind_terms;
use sm_data::Counted;
use sm_flat::Literal;
use sm_kinds::{MOST_CONSTRAINTS, MOST_TERMS};
use sm_meaning::ExpandRefusal;

fn try_row_coefficients(draft: &Draft) -> Result<(), ExpandRefusal>
    ensures { (n : ℕ) (d : Demand) → IsDraftOf n d draft.now → Passes (row_coefficients_tried n d) result }
{
    match draft {
        Draft::Row { form, .. } => try_coefficients(form),
        Draft::RowWhen { form, .. } => try_coefficients(form),
        Draft::Formula(_) => Ok(()),
        Draft::Kind(_) => Ok(()),
    }
}

/// Tries the constant of a row.
fn try_constant(form: &sm_forms::Form) -> Result<(), ExpandRefusal>
    ensures tried { (n : ℕ) (g : Meaning) → IsFormOf n g form.now → Passes (bounds_tried (constant_of g ∷ [])) result }
    ensures small { OnOk result (unsigned_abs form.now.constant ≤ greatest_number) }
{
    try_bound(&form.constant)
}

/// Tries the bounds of the literals before a row, and then its constant.
fn try_row_when(literals: &[Literal], form: &sm_forms::Form) -> Result<(), ExpandRefusal>
    ensures tried { (n : ℕ) (g : Meaning) → IsFormOf n g form.now →
        Passes (bounds_tried (map (λ (l : Condition). l.bound) literals.now ++ constant_of g ∷ [])) result }
    ensures small { OnOk result (unsigned_abs form.now.constant ≤ greatest_number) }
{
    try_conditions(literals)?;
    try_constant(form)
}

fn try_bounds(draft: &Draft) -> Result<(), ExpandRefusal>
    ensures tried { (n : ℕ) (d : Demand) → IsDraftOf n d draft.now → Passes (bounds_tried (bounds_of d)) result }
    ensures small { OnOk result (HasSmallNumbers draft.now) }
{
    match draft {
        Draft::Row { form, .. } => try_constant(form),
        Draft::Formula(formula) => try_formula(formula),
        Draft::RowWhen { literals, form, .. } => try_row_when(literals.as_slice(), form),
        Draft::Kind(form) => try_kind_bounds(form),
    }
}

fn try_entries(draft: &Draft) -> Result<(), ExpandRefusal>
    ensures { (n : ℕ) (d : Demand) → IsDraftOf n d draft.now → Passes (entries_tried (entries_of d)) result }
{
    match draft {
        Draft::Kind(form) => try_kind_entries(form),
        _ => Ok(()),
    }
}

/// Tries how many terms a row has.
fn try_row_terms(form: &sm_forms::Form) -> Result<(), ExpandRefusal>
    ensures { (n : ℕ) (g : Meaning) → IsFormOf n g form.now → Passes (count_tried counted.Terms most_terms (term_count n g)) result }
{
    try_count(Counted::Terms, MOST_TERMS, form.terms().len())
}

fn try_terms(draft: &Draft) -> Result<(), ExpandRefusal>
    ensures { (n : ℕ) (d : Demand) → IsDraftOf n d draft.now → Passes (terms_tried n d) result }
{
    match draft {
        Draft::Row { form, .. } => try_row_terms(form),
        Draft::Formula(_) => Ok(()),
        Draft::RowWhen { form, .. } => try_row_terms(form),
        Draft::Kind(form) => try_kind_terms(form),
    }
}

/// Tries the numbers of a draft, that there is room for one more constraint, and how many terms it has.
pub(crate) fn try_front(constraints: usize, draft: &Draft) -> Result<(), ExpandRefusal>
    requires { constraints ≤ most_constraints }
    ensures tried { (n : ℕ) (d : Demand) → IsDraftOf n d draft.now → Passes (front_tried n d constraints) result }
    ensures small { OnOk result (HasSmallNumbers draft.now) }
{
    try_row_coefficients(draft)?;
    try_bounds(draft)?;
    try_entries(draft)?;
    try_count(Counted::Constraints, MOST_CONSTRAINTS, constraints + 1)?;
    try_terms(draft)
}
