//! mean.V: linked variable V less the sum of its declared values, each times its indicator, is 0.
ghost use Rattle.std.specs.Prelude.{◌≡◌, ◌∷◌, All, neg_ℤ, IfOk};
ghost use Rattle.sm_kinds.specs.Limits.{IsSmall};
ghost use Rattle.sm_rows.specs.Forms.{indicator, indicators};
ghost use Rattle.rule_basic.specs.MeanRows.{mean_terms, mean_row, mean_of};

use sm_flat::Flat;
use sm_rows::{Row, is_linked, row_of};
use sm_step::Col;
use std::alloc::{AllocError, Global};

fn less_value(var: u32, value: &i64) -> (Col, i64)
    requires { IsSmall value.now }
    ensures { result ≡ indicator var neg_ℤ value.now }
{
    (Col::Is(var, *value), -*value)
}

fn mean_terms(alloc: Global, var: u32, values: &[i64]) -> Result<Vec<(Col, i64)>, AllocError>
    requires { All IsSmall values.now }
    ensures { IfOk result (λ v. v.items ≡ mean_terms var values.now) }
{
    let mut found = Vec::with_capacity(alloc, values.len())?;
    found.push((Col::Var(var), 1))?;
    for value in values {
        found.push(less_value(var, value))?;
    }
    Ok(found)
}

fn mean_row(alloc: Global, var: u32, values: &[i64]) -> Result<Row, AllocError>
    requires { All IsSmall values.now }
    ensures { IfOk result (λ r. r ≡ mean_row var values.now) }
{
    let terms = mean_terms(alloc, var, values)?;
    row_of(alloc, terms.as_slice(), true, 0)
}

/// The row of a variable, where that is linked.
pub(crate) fn mean_of(alloc: Global, flat: &Flat, var: u32) -> Result<Option<Row>, AllocError>
    ensures { IfOk result (λ r. r ≡ mean_of flat.now var) }
{
    if !is_linked(flat, var) {
        return Ok(None);
    }
    let Some(variable) = flat.vars().get(var as usize) else {
        return Ok(None);
    };
    Ok(Some(mean_row(alloc, var, variable.values.as_slice())?))
}
