//! Formulas that are to hold.
ghost use Rattle.sm_syntax.specs.declared.place.Place.{Place};
ghost use Rattle.sm_syntax.specs.Formulas.{formula_of};
ghost use Rattle.sm_syntax.specs.Trees.{logic};
ghost use Rattle.sm_meaning.specs.Scopes.{count_of};
ghost use Rattle.sm_meaning.specs.Trials.{GoesThrough};
ghost use Rattle.sm_meaning.specs.Demands.{demand_of};
ghost use Rattle.sm_meaning.specs.DemandTrials.{demand_tried};
ghost use Rattle.sm_drafts.specs.Drafts.{IsDraftOf};

use sm_drafts::Draft;
use sm_meaning::ExpandRefusal;
use sm_scopes::{Cases, Scope};
use sm_statements::statement;
use sm_syntax::Formula;
use std::alloc::Global;

/// A formula that is to hold.
///
/// # Errors
///
/// The first that is refused in the order of the text.
pub(crate) fn formula<'t>(
    alloc: Global,
    scope: &Scope,
    cases: &Cases<'t>,
    visited: &mut u64,
    x: &'t Formula,
) -> Result<Draft, ExpandRefusal>
    ensures { (p : Place) → GoesThrough (demand_tried (logic p (formula_of x.now)) scope.now cases.now.tuple) visited.old visited.new
        (IsDraftOf (count_of scope.now) (demand_of (logic p (formula_of x.now)) scope.now cases.now.tuple)) result }
{
    Ok(Draft::Formula(statement(alloc, scope, cases, visited, x)?))
}
