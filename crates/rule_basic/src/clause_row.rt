//! clause.K.C: the column forms of the literals of clause C of logic constraint K sum to at least 1, since one of the literals is
//! true. Each literal has to have a form.
ghost use Rattle.std.specs.Prelude.{◌≡◌, ◌≤◌, ◌^◌, length, pos, ◌-ℤ◌, IfOk};
ghost use Rattle.sm_flat.specs.Forms.{size_of};
ghost use Rattle.sm_rows.specs.Forms.{form_weight};
ghost use Rattle.rule_basic.specs.ClauseRows.{no_sum, at_least_one, clause_row, clause_in};

use crate::forms::add_forms;
use sm_flat::{Flat, Form, Literal};
use sm_rows::{ColumnForm, Row, row_of};
use sqlite_items::Items;
use std::alloc::{AllocError, Global};

fn no_sum(alloc: Global) -> ColumnForm
    ensures { result ≡ no_sum }
{
    ColumnForm {
        constant: 0,
        terms: Items::new(alloc),
    }
}

fn bound_of(sum: &ColumnForm) -> i128
    ensures { result ≡ pos 1 -ℤ sum.now.constant }
{
    1 - i128::from(sum.constant)
}

/// The sum is at least 1.
fn at_least_one(alloc: Global, sum: &ColumnForm) -> Result<Row, AllocError>
    ensures { IfOk result (λ r. r ≡ at_least_one sum.now) }
{
    row_of(alloc, sum.terms.as_slice(), false, bound_of(sum))
}

fn clause_row(alloc: Global, flat: &Flat, literals: &[Literal]) -> Result<Option<Row>, AllocError>
    requires { length literals.now ≤ 2 ^ 22 }
    ensures { IfOk result (λ r. r ≡ clause_row flat.now literals.now) }
{
    match add_forms(alloc, flat, &1, no_sum(alloc), literals)? {
        Some(sum) => Ok(Some(at_least_one(alloc, &sum)?)),
        None => Ok(None),
    }
}

/// The row of a clause of a constraint of this form, where it has such a clause and each literal of that a form.
pub(crate) fn clause_in(
    alloc: Global,
    flat: &Flat,
    clause: u32,
    form: &Form,
) -> Result<Option<Row>, AllocError>
    requires { size_of form.now ≤ 2 ^ 22 }
    ensures { IfOk result (λ r. r ≡ clause_in flat.now clause form.now) }
{
    let Form::Logic(clauses) = form else {
        return Ok(None);
    };
    let Some(found) = clauses.get(clause as usize) else {
        return Ok(None);
    };
    clause_row(alloc, flat, found.literals.as_slice())
}
