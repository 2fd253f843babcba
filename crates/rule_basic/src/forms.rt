//! Sums of the column forms of literals.
ghost use Rattle.std.specs.Prelude.{◌≡◌, ◌+◌, ◌*◌, ◌<◌, ◌^◌, length, unsigned_abs, IfOk};
ghost use Rattle.sm_rows.specs.Forms.{form_weight};
ghost use Rattle.rule_basic.specs.ClauseRows.{add_forms};

use sm_flat::{Flat, Literal};
use sm_rows::{ColumnForm, add_form, column_form};
use std::alloc::{AllocError, Global};

/// The sum with `by` times the form of each literal more, where all literals have a form.
pub(crate) fn add_forms(
    alloc: Global,
    flat: &Flat,
    by: &i64,
    sum: ColumnForm,
    literals: &[Literal],
) -> Result<Option<ColumnForm>, AllocError>
    requires { form_weight sum + length literals.now * (unsigned_abs by.now * 65) < 2 ^ 63 }
    ensures { IfOk result (λ o. o ≡ add_forms flat.now by.now sum literals.now) }
{
    let mut total = sum;
    for literal in literals {
        let Some(form) = column_form(alloc, flat, literal)? else {
            return Ok(None);
        };
        add_form(&mut total, by, &form)?;
    }
    Ok(Some(total))
}
