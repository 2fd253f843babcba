//! A constraint at each of its tuples.
ghost use Rattle.std.specs.Prelude.{◌≡◌, [], ◌∷◌, Some, map, option_map};
ghost use Rattle.sm_syntax.specs.Expressions.{binding_of};
ghost use Rattle.sm_syntax.specs.Trees.{constraint_of, tag_of};
ghost use Rattle.sm_meaning.specs.Trials.{GoesThrough};
ghost use Rattle.sm_meaning.specs.Cases.{over_cases};
ghost use Rattle.sm_meaning.specs.Expansions.{Expansion, scope_of, with_posts, post_at};
ghost use Rattle.sm_meaning.specs.Models.{forall_tried, post_tried};
ghost use Rattle.sm_declarations.specs.Making.{IsMakingOf, IsOfSome};

use crate::adding::constraint_at;
use sm_declarations::Making;
use sm_meaning::ExpandRefusal;
use sm_parts::Tuples;
use sm_scopes::Cases;
use sm_syntax::{Binders, Cons, Tag};
use std::alloc::Global;

/// Posts a constraint at one tuple.
fn post_at<'t>(
    alloc: Global,
    made: &mut Making<'t>,
    visited: &mut u64,
    cases: &Cases<'t>,
    cons: &'t Cons,
    tags: &'t [Tag],
) -> Result<(), ExpandRefusal>
    requires { IsOfSome made.old }
    ensures { (e : Expansion) → IsMakingOf e made.old →
        GoesThrough (post_tried (constraint_of cons.now) (map tag_of tags.now) e cases.now.tuple) visited.old visited.new
        (λ _. IsMakingOf (with_posts e (post_at (constraint_of cons.now) (map tag_of tags.now) (scope_of e) cases.now.tuple ∷ [])) made.new) result }
{
    let added = constraint_at(alloc, made, visited, cases, cons, tags)?;
    made.constraints.push(added.constraint)?;
    made.totals = added.totals;
    Ok(())
}

/// Posts a constraint at each tuple that passes.
fn post_at_tuples<'t>(
    alloc: Global,
    made: &mut Making<'t>,
    visited: &mut u64,
    binders: &'t Binders,
    cons: &'t Cons,
    tags: &'t [Tag],
) -> Result<(), ExpandRefusal>
    requires { IsOfSome made.old }
    ensures { (e : Expansion) → IsMakingOf e made.old →
        GoesThrough (forall_tried (Some (binding_of binders.now)) (constraint_of cons.now) (map tag_of tags.now) e) visited.old visited.new
        (λ _. IsMakingOf (with_posts e (map (post_at (constraint_of cons.now) (map tag_of tags.now) (scope_of e)) (over_cases (Some (binding_of binders.now)) e.names []))) made.new) result }
{
    let outside = Cases::outside(alloc);
    let mut tuples = Tuples::of(alloc, &made.scope, &outside, binders)?;
    'tuples: while tuples.next(alloc, &made.scope, visited)? {
        post_at(alloc, made, visited, tuples.cases(), cons, tags)?;
    }
    Ok(())
}

/// Posts a constraint, once or at each tuple that passes.
///
/// # Errors
///
/// The first that is refused in the order of the text, and of what is evaluated whole the first limit that is passed.
pub fn post<'t>(
    alloc: Global,
    made: &mut Making<'t>,
    visited: &mut u64,
    forall: &'t Option<Binders>,
    cons: &'t Cons,
    tags: &'t [Tag],
) -> Result<(), ExpandRefusal>
    requires { IsOfSome made.old }
    ensures { (e : Expansion) → IsMakingOf e made.old →
        GoesThrough (forall_tried (option_map binding_of forall.now) (constraint_of cons.now) (map tag_of tags.now) e) visited.old visited.new
        (λ _. IsMakingOf (with_posts e (map (post_at (constraint_of cons.now) (map tag_of tags.now) (scope_of e)) (over_cases (option_map binding_of forall.now) e.names []))) made.new) result }
{
    match forall {
        None => post_at(alloc, made, visited, &Cases::outside(alloc), cons, tags),
        Some(binders) => post_at_tuples(alloc, made, visited, binders, cons, tags),
    }
}
