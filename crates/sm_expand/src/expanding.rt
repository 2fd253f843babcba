//! A text with its tables to its flat model.
ghost use Rattle.std.specs.Prelude.{◌≡◌, ℕ, List};
ghost use Rattle.sm_flat.specs.Limits.{IsFlat};
ghost use Rattle.sm_syntax.specs.Trees.{tree_of};
ghost use Rattle.sm_meaning.specs.Trials.{GoesThrough};
ghost use Rattle.sm_meaning.specs.Expansions.{beginning};
ghost use Rattle.sm_meaning.specs.Models.{tree_tried};
ghost use Rattle.sm_data.specs.Documents.{Entry};
ghost use Rattle.sm_declarations.specs.Making.{IsMakingOf, IsOfSome};
ghost use Rattle.sm_expand.specs.Expanding.{ComesTo, IsMadeOf, IsGone};

use crate::items::add_items;
use crate::subproblems::try_subproblems;
use sm_data::Tables;
use sm_declarations::Making;
use sm_flat::{Flat, Goal};
use sm_goals::goals;
use sm_meaning::ExpandRefusal;
use sm_syntax::Tree;
use std::alloc::Global;

/// Goes through a text: its items, its goal, and then the subproblems.
fn go_through<'t>(
    alloc: Global,
    made: &mut Making<'t>,
    tree: &'t Tree,
) -> Result<Vec<Goal>, ExpandRefusal>
    requires { IsOfSome made.old }
    ensures { (tables : List Entry) → IsMakingOf (beginning tables) made.old →
        IsGone (tree_tried (tree_of tree.now) tables) (λ gs. IsMadeOf (tree_of tree.now) tables made.new gs.items) result }
{
    let mut visited = 0;
    add_items(alloc, made, &mut visited, tree.items.as_slice())?;
    let goals = goals(alloc, &made.scope, &mut visited, &tree.goal)?;
    match try_subproblems(made) {
        Ok(()) => Ok(goals),
        Err(refusal) => {
            drop(goals);
            Err(refusal)
        }
    }
}

/// The flat model of what was made.
fn flat_of(made: Making, goals: Vec<Goal>) -> Flat
    requires { IsFlat (record { vars = made.vars.items; constraints = made.constraints.items; goals = goals.items }) }
    ensures { result ≡ record { vars = made.entry.vars.items; constraints = made.entry.constraints.items; goals = goals.items } }
{
    Flat::of(made.vars, made.constraints, goals)
}

/// The flat model of a text with its tables.
///
/// # Errors
///
/// The first that is refused, in the order of the text. `OutOfMemory` may come at any place.
pub fn expand(alloc: Global, tree: &Tree, tables: &Tables) -> Result<Flat, ExpandRefusal>
    ensures { ComesTo (tree_of tree.now) tables.now result }
{
    let mut made = Making::begin(alloc, tables)?;
    match go_through(alloc, &mut made, tree) {
        Ok(goals) => Ok(flat_of(made, goals)),
        Err(refusal) => {
            drop(made);
            Err(refusal)
        }
    }
}
