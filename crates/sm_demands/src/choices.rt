//! Constraints that choose from tables.
ghost use Rattle.std.specs.Prelude.{◌≡◌, ◌∷◌, [], map, option_map};
ghost use Rattle.sm_syntax.specs.declared.place.Place.{Place};
ghost use Rattle.sm_syntax.specs.Expressions.{expression_of, binding_of};
ghost use Rattle.sm_syntax.specs.Trees.{chosen, choice_of, listing_of};
ghost use Rattle.sm_meaning.specs.Scopes.{count_of};
ghost use Rattle.sm_meaning.specs.Trials.{GoesThrough, ◌▸◌};
ghost use Rattle.sm_meaning.specs.Cases.{listed as listed_of, listed_tried, number_of, number_tried, variable_at, set_variable_tried};
ghost use Rattle.sm_meaning.specs.Demands.{demand_of, form_of_choice};
ghost use Rattle.sm_meaning.specs.DemandTrials.{demand_tried};
ghost use Rattle.sm_drafts.specs.Drafts.{IsDraftOf};

use sm_drafts::Draft;
use sm_flat::Form;
use sm_meaning::ExpandRefusal;
use sm_parts::{Numbers, Part, discrete, listed, push_all, set_variable};
use sm_scopes::{Cases, Scope};
use sm_syntax::{Binders, Choice, Choosing, Expr};
use sqlite_items::Items;
use std::alloc::Global;

/// Variables that pick, with their tables.
struct Picks;

impl Part<Choice, (u32, Items<i64>)> for Picks {
    ghost binding = { λ x. option_map binding_of x.binders };

    ghost tried = { λ _ s x b. set_variable_tried s (expression_of x.picks) b ▸ listed_tried (number_tried s) (listing_of x.table) s b };

    ghost makes = { λ _ s x b. (variable_at s (expression_of x.picks) b, listed_of (number_of s) (listing_of x.table) s.names b) ∷ [] };

    fn binders<'t>(node: &'t Choice) -> &'t Option<Binders> {
        &node.binders
    }

    fn push_at<'t>(
        &self,
        alloc: Global,
        scope: &Scope,
        cases: &Cases<'t>,
        visited: &mut u64,
        node: &'t Choice,
        made: &mut Vec<(u32, Items<i64>)>,
    ) -> Result<(), ExpandRefusal> {
        let var = set_variable(alloc, scope, cases, visited, &node.picks)?;
        let table = listed::<i64, Numbers>(alloc, scope, cases, visited, &node.table)?;
        made.push((var, table))?;
        Ok(())
    }
}

/// The kind of a constraint that chooses.
fn form_of(choosing: Choosing, choice: sm_flat::Choice) -> Form
    ensures { result ≡ form_of_choice choosing choice }
{
    match choosing {
        Choosing::Indexsum => Form::IndexSum(choice),
        Choosing::Assign => Form::Assign(choice),
    }
}

/// That a total is the sum of what variables choose.
///
/// # Errors
///
/// What is refused of the total, and then of the choices in the order of the text.
pub(crate) fn chosen<'t>(
    alloc: Global,
    scope: &Scope,
    cases: &Cases<'t>,
    visited: &mut u64,
    choosing: Choosing,
    total: &'t Expr,
    choices: &'t [Choice],
) -> Result<Draft, ExpandRefusal>
    ensures { (p : Place) → GoesThrough (demand_tried (chosen p choosing (expression_of total.now) (map choice_of choices.now)) scope.now cases.now.tuple) visited.old visited.new
        (IsDraftOf (count_of scope.now) (demand_of (chosen p choosing (expression_of total.now) (map choice_of choices.now)) scope.now cases.now.tuple)) result }
{
    let z = discrete(alloc, scope, cases, visited, total)?;
    let mut picks = Vec::new(alloc);
    push_all(&Picks, alloc, scope, cases, visited, choices, &mut picks)?;
    let choice = sm_flat::Choice {
        z,
        picks: Items::from_vec(picks),
    };
    Ok(Draft::Kind(form_of(choosing, choice)))
}
