//! Rows: two expressions that compare, at once or where all of some literals hold.
ghost use Rattle.std.specs.Prelude.{◌≡◌, map};
ghost use Rattle.sm_syntax.specs.declared.place.Place.{Place};
ghost use Rattle.sm_syntax.specs.Expressions.{expression_of, literal_of};
ghost use Rattle.sm_syntax.specs.Trees.{linear, conditional};
ghost use Rattle.sm_forms.specs.Forms.{IsFormOf};
ghost use Rattle.sm_meaning.specs.Scopes.{count_of};
ghost use Rattle.sm_meaning.specs.Trials.{GoesThrough};
ghost use Rattle.sm_meaning.specs.Demands.{demand_of, compare_of, margin};
ghost use Rattle.sm_meaning.specs.DemandTrials.{demand_tried, row_tried};
ghost use Rattle.sm_drafts.specs.Drafts.{IsDraftOf};

use sm_drafts::Draft;
use sm_expressions::{added, expression};
use sm_forms::Form;
use sm_meaning::ExpandRefusal;
use sm_parts::conditions;
use sm_scopes::{Cases, Scope};
use sm_syntax::{Cmp, Expr, Lit, Sign};
use std::alloc::Global;

/// How a row compares.
fn compare_of(cmp: &Cmp) -> sm_flat::Cmp
    ensures { result ≡ compare_of cmp.now }
{
    match cmp {
        Cmp::AtMost { .. } => sm_flat::Cmp::AtMost,
        Cmp::AtLeast { .. } => sm_flat::Cmp::AtLeast,
        Cmp::Equal { .. } => sm_flat::Cmp::Equal,
    }
}

/// How far the left side is above the right.
fn margin<'t>(
    alloc: Global,
    scope: &Scope,
    cases: &Cases<'t>,
    visited: &mut u64,
    left: &'t Expr,
    right: &'t Expr,
) -> Result<Form, ExpandRefusal>
    ensures { GoesThrough (row_tried scope.now (expression_of left.now) (expression_of right.now) cases.now.tuple) visited.old visited.new
        (IsFormOf (count_of scope.now) (margin scope.now (expression_of left.now) (expression_of right.now) cases.now.tuple)) result }
{
    let left = expression(alloc, scope, cases, visited, left)?;
    let right = expression(alloc, scope, cases, visited, right)?;
    added(alloc, left, Sign::Minus, right)
}

/// A row.
///
/// # Errors
///
/// The first that is refused: of the left side, of the right, and then of their difference.
pub(crate) fn row<'t>(
    alloc: Global,
    scope: &Scope,
    cases: &Cases<'t>,
    visited: &mut u64,
    left: &'t Expr,
    cmp: &Cmp,
    right: &'t Expr,
) -> Result<Draft, ExpandRefusal>
    ensures { (p : Place) → GoesThrough (demand_tried (linear p (expression_of left.now) cmp.now (expression_of right.now)) scope.now cases.now.tuple) visited.old visited.new
        (IsDraftOf (count_of scope.now) (demand_of (linear p (expression_of left.now) cmp.now (expression_of right.now)) scope.now cases.now.tuple)) result }
{
    let form = margin(alloc, scope, cases, visited, left, right)?;
    Ok(Draft::Row {
        cmp: compare_of(cmp),
        form,
    })
}

/// A row that is to hold where all of the literals do.
///
/// # Errors
///
/// The first that is refused: of the literals, and then of the row.
pub(crate) fn row_when<'t>(
    alloc: Global,
    scope: &Scope,
    cases: &Cases<'t>,
    visited: &mut u64,
    first: &'t Lit,
    more: &'t [Lit],
    left: &'t Expr,
    cmp: &Cmp,
    right: &'t Expr,
) -> Result<Draft, ExpandRefusal>
    ensures { (p : Place) → GoesThrough (demand_tried (conditional p (literal_of first.now) (map literal_of more.now) (expression_of left.now) cmp.now (expression_of right.now)) scope.now cases.now.tuple) visited.old visited.new
        (IsDraftOf (count_of scope.now) (demand_of (conditional p (literal_of first.now) (map literal_of more.now) (expression_of left.now) cmp.now (expression_of right.now)) scope.now cases.now.tuple)) result }
{
    let literals = conditions(alloc, scope, cases, visited, first, more)?;
    let form = margin(alloc, scope, cases, visited, left, right)?;
    Ok(Draft::RowWhen {
        literals,
        cmp: compare_of(cmp),
        form,
    })
}
