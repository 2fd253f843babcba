//! Constraints that pack items into groups.
ghost use Rattle.std.specs.Prelude.{◌≡◌, ◌∷◌, ◌==◌, [], length, map, not, option_map};
ghost use Rattle.std.specs.List.{flat_map};
ghost use Rattle.sm_syntax.specs.declared.place.Place.{Place};
ghost use Rattle.sm_syntax.specs.Expressions.{expression_of, binding_of};
ghost use Rattle.sm_syntax.specs.Trees.{packing, load_of, listing_of};
ghost use Rattle.sm_meaning.specs.declared.refusal.Wrong.TheVariants.{Value};
ghost use Rattle.sm_meaning.specs.Refusals.{wrong_if};
ghost use Rattle.sm_meaning.specs.Scopes.{count_of};
ghost use Rattle.sm_meaning.specs.Trials.{GoesThrough, ◌▸◌, tried, each_tried};
ghost use Rattle.sm_meaning.specs.Cases.{listed as listed_of, listed_tried, list_place, number_of, number_tried, amount_tried, variable_at, set_variable_tried};
ghost use Rattle.sm_meaning.specs.Demands.{demand_of, items_of};
ghost use Rattle.sm_meaning.specs.DemandTrials.{counted_list_tried, load_tried, demand_tried};
ghost use Rattle.sm_drafts.specs.Drafts.{IsDraftOf};

use sm_drafts::Draft;
use sm_flat::{Form, Item, Packing};
use sm_meaning::{ExpandRefusal, Wrong};
use sm_parts::{Amounts, Numbers, Part, Role, amount, discrete, listed, push_all, set_variable};
use sm_scopes::{Cases, Scope};
use sm_syntax::{Binders, Expr, List, Load};
use sqlite_items::Items;
use std::alloc::Global;

/// The numbers of a list, of which there must be so many.
///
/// # Errors
///
/// The first that is refused in the order of the text, and then `Value` for another count.
fn counted_list<'t, R: Role<i64>>(
    alloc: Global,
    scope: &Scope,
    cases: &Cases<'t>,
    visited: &mut u64,
    count: usize,
    list: &'t List,
) -> Result<Items<i64>, ExpandRefusal>
    ensures { GoesThrough (listed_tried (R.tried scope.now) (listing_of list.now) scope.now cases.now.tuple
        ▸ tried (wrong_if (not (length (listed_of (R.meant scope.now) (listing_of list.now) scope.now.names cases.now.tuple) == count)) (list_place (listing_of list.now)) Value)) visited.old visited.new
        (λ v. v ≡ listed_of (R.meant scope.now) (listing_of list.now) scope.now.names cases.now.tuple) result }
{
    let numbers = listed::<i64, R>(alloc, scope, cases, visited, list)?;
    if numbers.len() != count {
        return Err(ExpandRefusal::at(list.first.place, Wrong::Value));
    }
    Ok(numbers)
}

/// Items to be packed into so many groups.
#[derive(Clone, Copy)]
struct Packed {
    groups: usize,
}

impl Part<Load, Item> for Packed {
    ghost binding = { λ x. option_map binding_of x.binders };

    ghost tried = { λ p s x b. set_variable_tried s (expression_of x.group) b ▸ amount_tried s (expression_of x.size) b ▸ counted_list_tried number_tried s p.groups (listing_of x.costs) b };

    ghost makes = { λ _ s x b. record { group = variable_at s (expression_of x.group) b; size = number_of s (expression_of x.size) b; costs = listed_of (number_of s) (listing_of x.costs) s.names b } ∷ [] };

    fn binders<'t>(node: &'t Load) -> &'t Option<Binders> {
        &node.binders
    }

    fn push_at<'t>(
        &self,
        alloc: Global,
        scope: &Scope,
        cases: &Cases<'t>,
        visited: &mut u64,
        node: &'t Load,
        made: &mut Vec<Item>,
    ) -> Result<(), ExpandRefusal> {
        let group = set_variable(alloc, scope, cases, visited, &node.group)?;
        let size = amount(alloc, scope, cases, visited, &node.size)?;
        let costs = counted_list::<Numbers>(
            alloc,
            scope,
            cases,
            visited,
            self.groups,
            &node.costs,
        )?;
        made.push(Item { group, size, costs })?;
        Ok(())
    }
}

/// The capacities of groups, and what it costs to open each.
#[derive(Drop)]
struct Grouping {
    capacities: Items<i64>,
    opening: Items<i64>,
}

/// The groups.
fn groups<'t>(
    alloc: Global,
    scope: &Scope,
    cases: &Cases<'t>,
    visited: &mut u64,
    capacities: &'t List,
    openings: &'t List,
) -> Result<Grouping, ExpandRefusal>
    ensures { GoesThrough (listed_tried (amount_tried scope.now) (listing_of capacities.now) scope.now cases.now.tuple
        ▸ counted_list_tried amount_tried scope.now (length (listed_of (number_of scope.now) (listing_of capacities.now) scope.now.names cases.now.tuple)) (listing_of openings.now) cases.now.tuple) visited.old visited.new
        (λ g. (g.capacities ≡ listed_of (number_of scope.now) (listing_of capacities.now) scope.now.names cases.now.tuple)
        × (g.opening ≡ listed_of (number_of scope.now) (listing_of openings.now) scope.now.names cases.now.tuple)) result }
{
    let capacities = listed::<i64, Amounts>(alloc, scope, cases, visited, capacities)?;
    let opening = counted_list::<Amounts>(
        alloc,
        scope,
        cases,
        visited,
        capacities.len(),
        openings,
    )?;
    Ok(Grouping {
        capacities,
        opening,
    })
}

/// The items.
fn items<'t>(
    alloc: Global,
    scope: &Scope,
    cases: &Cases<'t>,
    visited: &mut u64,
    groups: usize,
    loads: &'t [Load],
) -> Result<Items<Item>, ExpandRefusal>
    ensures { GoesThrough (each_tried (load_tried scope.now cases.now.tuple groups) (map load_of loads.now)) visited.old visited.new
        (λ v. v ≡ flat_map (items_of scope.now cases.now.tuple) (map load_of loads.now)) result }
{
    let mut made = Vec::new(alloc);
    let part = Packed { groups };
    push_all(&part, alloc, scope, cases, visited, loads, &mut made)?;
    Ok(Items::from_vec(made))
}

/// That each item is in a group, none holds more than its capacity, and the cost is that of all items and open groups.
///
/// # Errors
///
/// What is refused of the cost, of the groups, and then of the items, in the order of the text; `Value` for a list with
/// another count than that of the groups.
pub(crate) fn packing<'t>(
    alloc: Global,
    scope: &Scope,
    cases: &Cases<'t>,
    visited: &mut u64,
    cost: &'t Expr,
    capacities: &'t List,
    openings: &'t List,
    loads: &'t [Load],
) -> Result<Draft, ExpandRefusal>
    ensures { (p : Place) → GoesThrough (demand_tried (packing p (expression_of cost.now) (listing_of capacities.now) (listing_of openings.now) (map load_of loads.now)) scope.now cases.now.tuple) visited.old visited.new
        (IsDraftOf (count_of scope.now) (demand_of (packing p (expression_of cost.now) (listing_of capacities.now) (listing_of openings.now) (map load_of loads.now)) scope.now cases.now.tuple)) result }
{
    let z = discrete(alloc, scope, cases, visited, cost)?;
    let groups = groups(alloc, scope, cases, visited, capacities, openings)?;
    let items = items(alloc, scope, cases, visited, groups.capacities.len(), loads)?;
    Ok(Draft::Kind(Form::Packing(Packing {
        z,
        capacities: groups.capacities,
        opening: groups.opening,
        items,
    })))
}
