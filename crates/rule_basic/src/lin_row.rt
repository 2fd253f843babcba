//! lin.K: linear constraint K as a row. `sum >= bound` and `sum = bound` stand as written, and `sum <= bound` is turned:
//! less the sum is at least less the bound.
ghost use Rattle.std.specs.Prelude.{◌≡◌, List, All, neg_ℤ, IfOk};
ghost use Rattle.sm_kinds.specs.declared.var.Var.{Var as Variable};
ghost use Rattle.sm_kinds.specs.Limits.{IsSmall};
ghost use Rattle.sm_flat.specs.Forms.{IsForm};
ghost use Rattle.rule_basic.specs.LinRows.{column_term, turned_term, column_terms, turned_terms, lin_row, lin_in};

use sm_flat::{Cmp, Form, LinRow};
use sm_rows::Row;
use sm_step::Col;
use sqlite_items::Items;
use std::alloc::{AllocError, Global};

fn column_term(term: &(u32, i64)) -> (Col, i64)
    ensures { result ≡ column_term term.now }
{
    (Col::Var(term.0), term.1)
}

fn turned_term(term: &(u32, i64)) -> (Col, i64)
    requires { IsSmall term.now.1 }
    ensures { result ≡ turned_term term.now }
{
    (Col::Var(term.0), -term.1)
}

/// The terms of a linear sum, over columns.
pub(crate) fn column_terms(
    alloc: Global,
    terms: &[(u32, i64)],
) -> Result<Vec<(Col, i64)>, AllocError>
    ensures { IfOk result (λ v. v.items ≡ column_terms terms.now) }
{
    let mut found = Vec::with_capacity(alloc, terms.len())?;
    for term in terms {
        found.push(column_term(term))?;
    }
    Ok(found)
}

/// The same with each coefficient turned.
pub(crate) fn turned_terms(
    alloc: Global,
    terms: &[(u32, i64)],
) -> Result<Vec<(Col, i64)>, AllocError>
    requires { All (λ t. IsSmall t.1) terms.now }
    ensures { IfOk result (λ v. v.items ≡ turned_terms terms.now) }
{
    let mut found = Vec::with_capacity(alloc, terms.len())?;
    for term in terms {
        found.push(turned_term(term))?;
    }
    Ok(found)
}

fn bound_of(row: &LinRow) -> i128
    ensures { result ≡ row.now.bound }
{
    i128::from(row.bound)
}

fn turned_bound(row: &LinRow) -> i128
    requires { IsSmall row.now.bound }
    ensures { result ≡ neg_ℤ row.now.bound }
{
    -i128::from(row.bound)
}

fn lin_row(alloc: Global, row: &LinRow) -> Result<Row, AllocError>
    requires coefficients { All (λ t. IsSmall t.1) row.now.terms }
    requires bound { IsSmall row.now.bound }
    ensures { IfOk result (λ r. r ≡ lin_row row.now) }
{
    let terms = row.terms.as_slice();
    match row.cmp {
        Cmp::AtMost => Ok(Row {
            terms: Items::from_vec(turned_terms(alloc, terms)?),
            equal: false,
            bound: turned_bound(row),
        }),
        Cmp::AtLeast => Ok(Row {
            terms: Items::from_vec(column_terms(alloc, terms)?),
            equal: false,
            bound: bound_of(row),
        }),
        Cmp::Equal => Ok(Row {
            terms: Items::from_vec(column_terms(alloc, terms)?),
            equal: true,
            bound: bound_of(row),
        }),
    }
}

/// The row of a constraint of this form, where it is linear.
pub(crate) fn lin_in(alloc: Global, form: &Form) -> Result<Option<Row>, AllocError>
    requires { (vars : List Variable) × IsForm vars form.now }
    ensures { IfOk result (λ r. r ≡ lin_in form.now) }
{
    let Form::Linear(row) = form else {
        return Ok(None);
    };
    Ok(Some(lin_row(alloc, row)?))
}
