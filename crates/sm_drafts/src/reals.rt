//! Rows with a real variable.
ghost use Rattle.std.specs.Prelude.{◌≡◌, ◌≤◌, ℕ, length, if◌then◌else◌};
ghost use Rattle.sm_forms.specs.Meanings.{Meaning};
ghost use Rattle.sm_forms.specs.Forms.{IsFormOf};
ghost use Rattle.sm_flat.specs.Limits as flat;
ghost use Rattle.sm_meaning.specs.Demands.{Demand};
ghost use Rattle.sm_meaning.specs.Expansions.{Expansion, vars_of, scope_of};
ghost use Rattle.sm_meaning.specs.Limits.{is_real_row};
ghost use Rattle.sm_drafts.specs.Drafts.{IsDraftOf};

use crate::draft::Draft;
use sm_flat::Var;
use sm_kinds::is_real;

/// Whether some term is of a real variable.
fn has_real(vars: &[Var], terms: &[(u32, i64)]) -> bool
    ensures { result ≡ flat.has_real vars.now terms.now }
{
    terms.iter().any(|t| is_real(vars, t.0))
}

fn one_if(real: bool) -> usize
    ensures value { result ≡ (if real then 1 else 0) }
    ensures bound { result ≤ 1 }
{
    if real { 1 } else { 0 }
}

/// Whether the draft is of a row with a real variable.
fn is_real_row(vars: &[Var], draft: &Draft) -> bool
    ensures { (e : Expansion) (d : Demand) → vars.now ≡ vars_of e → IsDraftOf (length vars.now) d draft.now → result ≡ is_real_row (scope_of e) d }
{
    match draft {
        Draft::Row { form, .. } => has_real(vars, form.terms()),
        Draft::Formula(_) => false,
        Draft::RowWhen { form, .. } => has_real(vars, form.terms()),
        Draft::Kind(_) => false,
    }
}

/// 1 of a row with a real variable.
pub(crate) fn one_if_real_row(vars: &[Var], draft: &Draft) -> usize
    ensures value { (e : Expansion) (d : Demand) → vars.now ≡ vars_of e → IsDraftOf (length vars.now) d draft.now →
        result ≡ (if is_real_row (scope_of e) d then 1 else 0) }
    ensures bound { result ≤ 1 }
{
    one_if(is_real_row(vars, draft))
}
