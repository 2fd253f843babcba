//! The flat forms of drafts.
ghost use Rattle.std.specs.Prelude.{◌≡◌, ◌≤◌, ℕ, length, false, unsigned_abs, neg_ℤ};
ghost use Rattle.sm_kinds.specs.Limits.{greatest_number, most_clauses};
ghost use Rattle.sm_forms.specs.Meanings.{Meaning};
ghost use Rattle.sm_forms.specs.Forms.{IsFormOf};
ghost use Rattle.sm_clausify.specs.Propositions.{meaning, EachLiteral, HasSmallBound};
ghost use Rattle.sm_clausify.specs.Clauses.{clauses_of};
ghost use Rattle.sm_meaning.specs.Trials.{GoesThrough};
ghost use Rattle.sm_meaning.specs.Demands as demand;
ghost use Rattle.sm_meaning.specs.Demands.{Demand};
ghost use Rattle.sm_meaning.specs.Limits.{clauses_tried};
ghost use Rattle.sm_flattening.specs.Flattening.{row_of};
ghost use Rattle.sm_drafts.specs.Drafts.{IsDraftOf, HasSmallNumbers, IsFlatForm};

use crate::draft::Draft;
use crate::numbers::over;
use sm_clausify::{ClauseRefusal, Formula, clauses};
use sm_data::Counted;
use sm_flat::{Clause, Cmp, Form, LinRow};
use sm_kinds::MOST_CLAUSES;
use sm_meaning::ExpandRefusal;
use sqlite_items::Items;
use std::alloc::Global;

/// The constant of a form, on the other side.
fn opposite(form: &sm_forms::Form) -> i64
    requires { unsigned_abs form.now.constant ≤ greatest_number }
    ensures { result ≡ neg_ℤ form.now.constant }
{
    -form.constant
}

/// The row that says how a form compares with 0. The terms stay as they lie in memory.
fn row_of(cmp: Cmp, form: sm_forms::Form) -> LinRow
    requires { unsigned_abs form.constant ≤ greatest_number }
    ensures { (n : ℕ) (g : Meaning) → IsFormOf n g form → result ≡ row_of n cmp g }
{
    let bound = opposite(&form);
    LinRow {
        terms: form.into_terms(),
        cmp,
        bound,
    }
}

/// The clauses of a formula, or the refusal of more than the limit.
fn clauses_of(alloc: Global, formula: &Formula) -> Result<Items<Clause>, ExpandRefusal>
    requires { EachLiteral HasSmallBound (meaning formula.now) }
    ensures { (count : ℕ) → GoesThrough (clauses_tried (demand.formula (meaning formula.now))) count count
        (λ cs. (cs ≡ clauses_of (meaning formula.now) false) × (length cs ≤ most_clauses)) result }
{
    match clauses(alloc, formula) {
        Ok(clauses) => Ok(Items::from_vec(clauses)),
        Err(ClauseRefusal::TooManyClauses { count }) => {
            Err(over(Counted::Clauses, MOST_CLAUSES, u128::from(count)))
        }
        Err(ClauseRefusal::OutOfMemory) => Err(ExpandRefusal::OutOfMemory),
    }
}

/// The flat form of a draft. The terms of a row stay as they lie in memory.
///
/// # Errors
///
/// `Limit` of the clauses of a formula, and `OutOfMemory`.
pub(crate) fn flat_form(alloc: Global, draft: Draft) -> Result<Form, ExpandRefusal>
    requires { HasSmallNumbers draft }
    ensures { (n : ℕ) (d : Demand) → IsDraftOf n d draft → (count : ℕ) → GoesThrough (clauses_tried d) count count (IsFlatForm n d) result }
{
    match draft {
        Draft::Row { cmp, form } => Ok(Form::Linear(row_of(cmp, form))),
        Draft::Formula(formula) => {
            let clauses = clauses_of(alloc, &formula);
            drop(formula);
            Ok(Form::Logic(clauses?))
        }
        Draft::RowWhen {
            literals,
            cmp,
            form,
        } => Ok(Form::When {
            literals,
            row: row_of(cmp, form),
        }),
        Draft::Kind(form) => Ok(form),
    }
}
