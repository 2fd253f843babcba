//! link.V: the indicators of linked variable V sum to 1, since V has one of its declared values.
ghost use Rattle.std.specs.Prelude.{◌≡◌, pos, IfOk};
ghost use Rattle.sm_rows.specs.Forms.{indicators, same_each};
ghost use Rattle.rule_basic.specs.LinkRows.{link_row, link_of};

use sm_flat::Flat;
use sm_rows::{Row, is_linked};
use sm_step::Col;
use sqlite_items::Items;
use std::alloc::{AllocError, Global};

fn indicators(alloc: Global, var: u32, values: &[i64]) -> Result<Vec<(Col, i64)>, AllocError>
    ensures { IfOk result (λ v. v.items ≡ indicators var (same_each (pos 1)) values.now) }
{
    let mut found = Vec::with_capacity(alloc, values.len())?;
    for value in values {
        found.push((Col::Is(var, *value), 1))?;
    }
    Ok(found)
}

fn link_row(alloc: Global, var: u32, values: &[i64]) -> Result<Row, AllocError>
    ensures { IfOk result (λ r. r ≡ link_row var values.now) }
{
    let terms = indicators(alloc, var, values)?;
    Ok(Row {
        terms: Items::from_vec(terms),
        equal: true,
        bound: 1,
    })
}

/// The row of a variable, where that is linked.
pub(crate) fn link_of(alloc: Global, flat: &Flat, var: u32) -> Result<Option<Row>, AllocError>
    ensures { IfOk result (λ r. r ≡ link_of flat.now var) }
{
    if !is_linked(flat, var) {
        return Ok(None);
    }
    let Some(variable) = flat.vars().get(var as usize) else {
        return Ok(None);
    };
    Ok(Some(link_row(alloc, var, variable.values.as_slice())?))
}
