//! Rows: sums of columns with a bound.
ghost use Rattle.std.specs.Prelude.{◌≡◌, IfOk};
ghost use Rattle.sm_rows.specs.Terms.{is_nonzero, without_zeros};

use crate::terms::is_nonzero;
use sm_step::Col;
use sqlite_items::Items;
use std::alloc::{AllocError, Global};

/// A sum of columns is at least the bound, or where the row says so equal to it.
#[derive(Drop)]
pub struct Row {
    /// Columns, each once, with their coefficients, none of which is 0.
    pub terms: Items<(Col, i64)>,
    pub equal: bool,
    pub bound: i128,
}

/// The terms whose coefficient isn't 0.
fn without_zeros(alloc: Global, terms: &[(Col, i64)]) -> Result<Vec<(Col, i64)>, AllocError>
    ensures { IfOk result (λ v. v.items ≡ without_zeros terms.now) }
{
    let mut kept = Vec::new(alloc);
    for term in terms {
        if is_nonzero(term) {
            kept.push(*term)?;
        }
    }
    Ok(kept)
}

/// The row of a sum, without the columns whose coefficient is 0.
pub fn row_of(
    alloc: Global,
    terms: &[(Col, i64)],
    equal: bool,
    bound: i128,
) -> Result<Row, AllocError>
    ensures { IfOk result (λ r. r ≡ record { terms = without_zeros terms.now; equal = equal; bound = bound }) }
{
    let kept = without_zeros(alloc, terms)?;
    Ok(Row {
        terms: Items::from_vec(kept),
        equal,
        bound,
    })
}
