//! Constraints on tasks.
ghost use Rattle.std.specs.Prelude.{◌∷◌, [], map, option_map, pos};
ghost use Rattle.sm_syntax.specs.declared.place.Place.{Place};
ghost use Rattle.sm_syntax.specs.Expressions.{expression_of, binding_of, literal_of};
ghost use Rattle.sm_syntax.specs.Trees.{cumulative, ctask_of, disjunctive, dtask_of};
ghost use Rattle.sm_meaning.specs.Scopes.{count_of};
ghost use Rattle.sm_meaning.specs.Trials.{GoesThrough, ◌▸◌};
ghost use Rattle.sm_meaning.specs.Cases.{number_of, amount_tried, variable_at, set_variable_tried};
ghost use Rattle.sm_meaning.specs.Formulas.{condition_of};
ghost use Rattle.sm_meaning.specs.Demands.{demand_of};
ghost use Rattle.sm_meaning.specs.DemandTrials.{presence_tried, demand_tried};
ghost use Rattle.sm_drafts.specs.Drafts.{IsDraftOf};

use sm_drafts::Draft;
use sm_flat::{Form, Task};
use sm_meaning::ExpandRefusal;
use sm_parts::{Part, amount, presence, push_all, push_node, set_variable};
use sm_scopes::{Cases, Scope};
use sm_syntax::{Binders, Ctask, Dtask, Expr};
use sqlite_items::Items;
use std::alloc::Global;

/// Tasks that share a capacity.
struct Sharing;

impl Part<Ctask, Task> for Sharing {
    ghost binding = { λ x. option_map binding_of x.binders };

    ghost tried = { λ _ s x b. set_variable_tried s (expression_of x.start) b ▸ amount_tried s (expression_of x.duration) b ▸ amount_tried s (expression_of x.demand) b ▸ presence_tried s (option_map literal_of x.presence) b };

    ghost makes = { λ _ s x b. record { start = variable_at s (expression_of x.start) b; duration = number_of s (expression_of x.duration) b; demand = number_of s (expression_of x.demand) b; present = option_map (λ l. condition_of s l b) (option_map literal_of x.presence) } ∷ [] };

    fn binders<'t>(node: &'t Ctask) -> &'t Option<Binders> {
        &node.binders
    }

    fn push_at<'t>(
        &self,
        alloc: Global,
        scope: &Scope,
        cases: &Cases<'t>,
        visited: &mut u64,
        node: &'t Ctask,
        made: &mut Vec<Task>,
    ) -> Result<(), ExpandRefusal> {
        let start = set_variable(alloc, scope, cases, visited, &node.start)?;
        let duration = amount(alloc, scope, cases, visited, &node.duration)?;
        let demand = amount(alloc, scope, cases, visited, &node.demand)?;
        let present = presence(alloc, scope, cases, visited, &node.presence)?;
        made.push(Task {
            start,
            duration,
            demand,
            present,
        })?;
        Ok(())
    }
}

/// Tasks of which each takes all there is.
struct Alone;

impl Part<Dtask, Task> for Alone {
    ghost binding = { λ x. option_map binding_of x.binders };

    ghost tried = { λ _ s x b. set_variable_tried s (expression_of x.start) b ▸ amount_tried s (expression_of x.duration) b ▸ presence_tried s (option_map literal_of x.presence) b };

    ghost makes = { λ _ s x b. record { start = variable_at s (expression_of x.start) b; duration = number_of s (expression_of x.duration) b; demand = pos 1; present = option_map (λ l. condition_of s l b) (option_map literal_of x.presence) } ∷ [] };

    fn binders<'t>(node: &'t Dtask) -> &'t Option<Binders> {
        &node.binders
    }

    fn push_at<'t>(
        &self,
        alloc: Global,
        scope: &Scope,
        cases: &Cases<'t>,
        visited: &mut u64,
        node: &'t Dtask,
        made: &mut Vec<Task>,
    ) -> Result<(), ExpandRefusal> {
        let start = set_variable(alloc, scope, cases, visited, &node.start)?;
        let duration = amount(alloc, scope, cases, visited, &node.duration)?;
        let present = presence(alloc, scope, cases, visited, &node.presence)?;
        made.push(Task {
            start,
            duration,
            demand: 1,
            present,
        })?;
        Ok(())
    }
}

/// That the tasks that run at one time need no more than the capacity.
///
/// # Errors
///
/// What is refused of the capacity, and then of the tasks in the order of the text.
pub(crate) fn cumulative<'t>(
    alloc: Global,
    scope: &Scope,
    cases: &Cases<'t>,
    visited: &mut u64,
    capacity: &'t Expr,
    tasks: &'t [Ctask],
) -> Result<Draft, ExpandRefusal>
    ensures { (p : Place) → GoesThrough (demand_tried (cumulative p (expression_of capacity.now) (map ctask_of tasks.now)) scope.now cases.now.tuple) visited.old visited.new
        (IsDraftOf (count_of scope.now) (demand_of (cumulative p (expression_of capacity.now) (map ctask_of tasks.now)) scope.now cases.now.tuple)) result }
{
    let capacity = amount(alloc, scope, cases, visited, capacity)?;
    let mut made = Vec::new(alloc);
    push_all(&Sharing, alloc, scope, cases, visited, tasks, &mut made)?;
    Ok(Draft::Kind(Form::Cumulative {
        capacity,
        tasks: Items::from_vec(made),
    }))
}

/// That no two tasks run at one time.
///
/// # Errors
///
/// What is refused of the tasks in the order of the text.
pub(crate) fn disjunctive<'t>(
    alloc: Global,
    scope: &Scope,
    cases: &Cases<'t>,
    visited: &mut u64,
    first: &'t Dtask,
    more: &'t [Dtask],
) -> Result<Draft, ExpandRefusal>
    ensures { (p : Place) → GoesThrough (demand_tried (disjunctive p (dtask_of first.now) (map dtask_of more.now)) scope.now cases.now.tuple) visited.old visited.new
        (IsDraftOf (count_of scope.now) (demand_of (disjunctive p (dtask_of first.now) (map dtask_of more.now)) scope.now cases.now.tuple)) result }
{
    let mut made = Vec::new(alloc);
    push_node(&Alone, alloc, scope, cases, visited, first, &mut made)?;
    push_all(&Alone, alloc, scope, cases, visited, more, &mut made)?;
    Ok(Draft::Kind(Form::Disjunctive(Items::from_vec(made))))
}
