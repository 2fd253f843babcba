//! What a constraint demands at a tuple.
ghost use Rattle.sm_syntax.specs.Trees.{constraint_of};
ghost use Rattle.sm_meaning.specs.Scopes.{count_of};
ghost use Rattle.sm_meaning.specs.Trials.{GoesThrough};
ghost use Rattle.sm_meaning.specs.Demands.{demand_of};
ghost use Rattle.sm_meaning.specs.DemandTrials.{demand_tried};
ghost use Rattle.sm_drafts.specs.Drafts.{IsDraftOf};

use crate::choices::chosen;
use crate::lists::{alldiff, circuit, element};
use crate::loads::packing;
use crate::logic::formula;
use crate::rows::{row, row_when};
use crate::tasks::{cumulative, disjunctive};
use sm_drafts::Draft;
use sm_meaning::ExpandRefusal;
use sm_scopes::{Cases, Scope};
use sm_syntax::Cons;
use std::alloc::Global;

/// A constraint at a tuple.
///
/// # Errors
///
/// The first that is refused in the order of the text.
pub fn demand<'t>(
    alloc: Global,
    scope: &Scope,
    cases: &Cases<'t>,
    visited: &mut u64,
    x: &'t Cons,
) -> Result<Draft, ExpandRefusal>
    ensures { GoesThrough (demand_tried (constraint_of x.now) scope.now cases.now.tuple) visited.old visited.new
        (IsDraftOf (count_of scope.now) (demand_of (constraint_of x.now) scope.now cases.now.tuple)) result }
{
    match x {
        Cons::Linear {
            left,
            cmp,
            right,
            ..
        } => row(alloc, scope, cases, visited, left, cmp, right),
        Cons::Logic { formula: x, .. } => formula(alloc, scope, cases, visited, x),
        Cons::When {
            first,
            more,
            left,
            cmp,
            right,
            ..
        } => {
            let more = more.as_slice();
            row_when(alloc, scope, cases, visited, first, more, left, cmp, right)
        }
        Cons::Alldiff { list, .. } => alldiff(alloc, scope, cases, visited, list),
        Cons::Circuit { list, .. } => circuit(alloc, scope, cases, visited, list),
        Cons::Element {
            index,
            entries,
            value,
            ..
        } => element(alloc, scope, cases, visited, index, entries, value),
        Cons::Choices {
            choosing,
            total,
            choices,
            ..
        } => {
            let choices = choices.as_slice();
            chosen(alloc, scope, cases, visited, *choosing, total, choices)
        }
        Cons::Cumulative {
            capacity,
            tasks,
            ..
        } => cumulative(alloc, scope, cases, visited, capacity, tasks.as_slice()),
        Cons::Disjunctive { first, more, .. } => {
            disjunctive(alloc, scope, cases, visited, first, more.as_slice())
        }
        Cons::Packing {
            cost,
            capacities,
            openings,
            loads,
            ..
        } => {
            let loads = loads.as_slice();
            packing(
                alloc, scope, cases, visited, cost, capacities, openings, loads,
            )
        }
    }
}
