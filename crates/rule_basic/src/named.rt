//! The row that a name names, at a store.
ghost use Rattle.std.specs.Prelude.{◌≡◌, ◌<◌, ◌≤◌, ◌^◌, Some, length, slice_get, IfOk, IfSome};
ghost use Rattle.sm_kinds.specs.Points.{Point};
ghost use Rattle.sm_flat.specs.Forms.{IsForm, size_of};
ghost use Rattle.sm_flat.specs.Limits.{IsFlat};
ghost use Rattle.sm_flat.specs.Solutions.{Fits};
ghost use Rattle.sm_store.specs.Stores.{In, IsStoreOf};
ghost use Rattle.sm_rows.specs.Rows.{RowHolds};
ghost use Rattle.sm_rows.specs.Terms.{IsApart};
ghost use Rattle.rule_basic.specs.LinRows.{lin_in};
ghost use Rattle.rule_basic.specs.ClauseRows.{clause_in};
ghost use Rattle.rule_basic.specs.NamedRows.{of_form, row_of, Meets};

use crate::clause_row::clause_in;
use crate::lin_row::lin_in;
use crate::link_row::link_of;
use crate::mean_row::mean_of;
use sm_flat::Flat;
use sm_rows::Row;
use sm_step::RowRef;
use sm_store::Store;
use std::alloc::{AllocError, Global};

fn lin_of(alloc: Global, flat: &Flat, k: u32) -> Result<Option<Row>, AllocError>
    ensures { IfOk result (λ r. r ≡ of_form (slice_get flat.now.constraints k) lin_in) }
{
    if k as usize >= flat.constraints().len() {
        return Ok(None);
    }
    let constraint = flat.constraint(k);
    lin_in(alloc, &constraint.form)
}

fn clause_of(alloc: Global, flat: &Flat, k: u32, clause: u32) -> Result<Option<Row>, AllocError>
    ensures { IfOk result (λ r. r ≡ of_form (slice_get flat.now.constraints k) (clause_in flat.now clause)) }
{
    if k as usize >= flat.constraints().len() {
        return Ok(None);
    }
    let constraint = flat.constraint(k);
    clause_in(alloc, flat, clause, &constraint.form)
}

fn row_of(
    alloc: Global,
    flat: &Flat,
    store: &Store,
    name: &RowRef,
) -> Result<Option<Row>, AllocError>
    requires { IsStoreOf flat.now store.now }
    ensures { IfOk result (λ r. r ≡ row_of flat.now store.now name.now) }
{
    match name {
        RowRef::Lin { k } => lin_of(alloc, flat, *k),
        RowRef::Link { var } => link_of(alloc, flat, *var),
        RowRef::Mean { var } => mean_of(alloc, flat, *var),
        RowRef::Clause { k, clause } => clause_of(alloc, flat, *k, *clause),
        _ => Ok(None),
    }
}

/// The row that the name names at a store of the model: none where it doesn't stand or isn't lawful there, and none of a name of
/// another kind than `lin`, `link`, `mean` and `clause`.
pub fn row(
    alloc: Global,
    flat: &Flat,
    store: &Store,
    name: &RowRef,
) -> Result<Option<Row>, AllocError>
    requires limits { IsFlat flat.now }
    requires store { IsStoreOf flat.now store.now }
    ensures value { IfOk result (λ r. r ≡ row_of flat.now store.now name.now) }
    // It holds at each assignment that fits, lies in the store, and satisfies the constraint whose row it is.
    ensures holds { IfOk result (λ o. IfSome o (λ r. (a : Point) → Fits flat.now a → In a store.now → Meets flat.now name.now a → RowHolds a r)) }
    // It names no column twice.
    ensures apart { IfOk result (λ o. IfSome o (λ r. IsApart r.terms)) }
{
    let named = row_of(alloc, flat, store, name)?;
    Ok(named)
}
