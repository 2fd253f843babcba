//! Constraints on lists of variables and entries.
ghost use Rattle.sm_syntax.specs.declared.place.Place.{Place};
ghost use Rattle.sm_syntax.specs.Expressions.{expression_of};
ghost use Rattle.sm_syntax.specs.Trees.{alldiff, circuit, element, listing_of};
ghost use Rattle.sm_meaning.specs.Scopes.{count_of};
ghost use Rattle.sm_meaning.specs.Trials.{GoesThrough};
ghost use Rattle.sm_meaning.specs.Demands.{demand_of};
ghost use Rattle.sm_meaning.specs.DemandTrials.{demand_tried};
ghost use Rattle.sm_drafts.specs.Drafts.{IsDraftOf};

use sm_drafts::Draft;
use sm_flat::{Entry, Form};
use sm_meaning::ExpandRefusal;
use sm_parts::{Entries, SetVariables, discrete, listed, set_variable};
use sm_scopes::{Cases, Scope};
use sm_syntax::{Expr, List};
use std::alloc::Global;

/// That the values of variables differ.
///
/// # Errors
///
/// What is refused of the list.
pub(crate) fn alldiff<'t>(
    alloc: Global,
    scope: &Scope,
    cases: &Cases<'t>,
    visited: &mut u64,
    list: &'t List,
) -> Result<Draft, ExpandRefusal>
    ensures { (p : Place) → GoesThrough (demand_tried (alldiff p (listing_of list.now)) scope.now cases.now.tuple) visited.old visited.new
        (IsDraftOf (count_of scope.now) (demand_of (alldiff p (listing_of list.now)) scope.now cases.now.tuple)) result }
{
    let variables = listed::<u32, SetVariables>(alloc, scope, cases, visited, list)?;
    Ok(Draft::Kind(Form::Alldiff(variables)))
}

/// That variables make one tour.
///
/// # Errors
///
/// What is refused of the list.
pub(crate) fn circuit<'t>(
    alloc: Global,
    scope: &Scope,
    cases: &Cases<'t>,
    visited: &mut u64,
    list: &'t List,
) -> Result<Draft, ExpandRefusal>
    ensures { (p : Place) → GoesThrough (demand_tried (circuit p (listing_of list.now)) scope.now cases.now.tuple) visited.old visited.new
        (IsDraftOf (count_of scope.now) (demand_of (circuit p (listing_of list.now)) scope.now cases.now.tuple)) result }
{
    let variables = listed::<u32, SetVariables>(alloc, scope, cases, visited, list)?;
    Ok(Draft::Kind(Form::Circuit(variables)))
}

/// That a value equals the entry that the index tells.
///
/// # Errors
///
/// What is refused of the index, then of the entries, then of the value.
pub(crate) fn element<'t>(
    alloc: Global,
    scope: &Scope,
    cases: &Cases<'t>,
    visited: &mut u64,
    index: &'t Expr,
    entries: &'t List,
    value: &'t Expr,
) -> Result<Draft, ExpandRefusal>
    ensures { (p : Place) → GoesThrough (demand_tried (element p (expression_of index.now) (listing_of entries.now) (expression_of value.now)) scope.now cases.now.tuple) visited.old visited.new
        (IsDraftOf (count_of scope.now) (demand_of (element p (expression_of index.now) (listing_of entries.now) (expression_of value.now)) scope.now cases.now.tuple)) result }
{
    let x = set_variable(alloc, scope, cases, visited, index)?;
    let entries = listed::<Entry, Entries>(alloc, scope, cases, visited, entries)?;
    let z = discrete(alloc, scope, cases, visited, value)?;
    Ok(Draft::Kind(Form::Element { x, entries, z }))
}
