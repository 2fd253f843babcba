//! One more constraint behind those that there are. What is refused is dropped by a call, which is proved once for each
//! type: dropped in place, it would be proved here, shape by shape.
ghost use Rattle.std.specs.Prelude.{◌≡◌, ◌≤◌, ◌+◌, ℕ, length};
ghost use Rattle.sm_kinds.specs.Limits.{most_total};
ghost use Rattle.sm_data.specs.declared.refusal.Counted.TheVariants as counted;
ghost use Rattle.sm_meaning.specs.Trials.{◌▸◌, GoesThrough};
ghost use Rattle.sm_meaning.specs.Demands.{Demand};
ghost use Rattle.sm_meaning.specs.Expansions.{Post, Expansion, vars_of};
ghost use Rattle.sm_meaning.specs.Limits.{size_of, count_tried, clauses_tried, post_limits_tried};
ghost use Rattle.sm_drafts.specs.Drafts.{IsDraftOf, HasSmallNumbers, Passes, rest_tried};
ghost use Rattle.sm_drafts.specs.TagDrafts.{tags_of};
ghost use Rattle.sm_drafts.specs.Sums.{IsSizedForm, IsWithin, AreTotals, IsAdded};

use crate::draft::Draft;
use crate::flat::flat_form;
use crate::front::try_front;
use crate::groups::try_kind_limits;
use crate::numbers::try_count;
use crate::reals::one_if_real_row;
use crate::tags::{DraftTags, tags_within};
use crate::total::try_total;
use sm_data::Counted;
use sm_flat::{Constraint, Form, Tags, Var};
use sm_kinds::MOST_REAL_ROWS;
use sm_meaning::ExpandRefusal;
use std::alloc::Global;

/// What the constraints so far come to.
#[derive(Clone, Copy)]
pub struct Totals {
    pub constraints: usize,
    /// Their terms, literals and members of tables.
    pub sizes: u64,
    /// Rows with a real variable.
    pub real_rows: usize,
}

/// A constraint, and what all constraints come to with it.
#[derive(Drop)]
pub struct Added {
    pub constraint: Constraint,
    pub totals: Totals,
}

/// A form, and the terms, literals and members of tables of all constraints with it.
#[derive(Drop)]
struct SizedForm {
    form: Form,
    sizes: u64,
}

/// The flat form of a draft, within the limits of the total and of clauses. The clauses are made first; where there are
/// too many, the total would not be over its limit.
fn sized_form(alloc: Global, sizes: u64, draft: Draft) -> Result<SizedForm, ExpandRefusal>
    requires small { HasSmallNumbers draft }
    requires within { sizes ≤ most_total }
    ensures { (n : ℕ) (d : Demand) → IsDraftOf n d draft → (count : ℕ) →
        GoesThrough (count_tried counted.Total most_total (sizes + size_of n d) ▸ clauses_tried d) count count (IsSizedForm n d sizes) result }
{
    let form = flat_form(alloc, draft)?;
    match try_total(sizes, &form) {
        Ok(sizes) => Ok(SizedForm { form, sizes }),
        Err(refusal) => {
            drop(form);
            Err(refusal)
        }
    }
}

/// Tries the tasks, items and groups of a form, the number of rows with a real variable, and the numbers of tags.
fn try_rest(
    vars: &[Var],
    form: &Form,
    real_rows: usize,
    tags: &DraftTags,
) -> Result<Tags, ExpandRefusal>
    ensures { (count : ℕ) → GoesThrough (rest_tried vars.now form.now real_rows (tags_of tags.now)) count count (λ t. t ≡ tags_of tags.now) result }
{
    try_kind_limits(vars, form)?;
    try_count(Counted::Realrows, MOST_REAL_ROWS, real_rows)?;
    tags_within(tags)
}

/// The flat constraint of a draft with these tags, behind those that there are.
///
/// # Errors
///
/// `Limit` of the first limit that is passed, in this order: coefficients, bounds, entries, constraints, terms, the
/// total, clauses, tasks, items and groups, rows with a real variable, and the numbers of tags. And `OutOfMemory`.
pub fn constraint(
    alloc: Global,
    vars: &[Var],
    totals: Totals,
    draft: Draft,
    tags: DraftTags,
) -> Result<Added, ExpandRefusal>
    requires { IsWithin totals }
    ensures { (e : Expansion) (p : Post) → vars.now ≡ vars_of e → AreTotals e totals → IsDraftOf (length vars.now) p.demand draft → p.tags ≡ tags_of tags →
        (count : ℕ) → GoesThrough (post_limits_tried e p) count count (IsAdded (length vars.now) e p) result }
{
    if let Err(refusal) = try_front(totals.constraints, &draft) {
        drop(draft);
        return Err(refusal);
    }
    let real_rows = totals.real_rows + one_if_real_row(vars, &draft);
    let SizedForm { form, sizes } = sized_form(alloc, totals.sizes, draft)?;
    let tags = match try_rest(vars, &form, real_rows, &tags) {
        Ok(tags) => tags,
        Err(refusal) => {
            drop(form);
            return Err(refusal);
        }
    };
    Ok(Added {
        constraint: Constraint { form, tags },
        totals: Totals {
            constraints: totals.constraints + 1,
            sizes,
            real_rows,
        },
    })
}
