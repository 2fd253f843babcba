//! The items of a text, one after another.
ghost use Rattle.std.specs.Prelude.{◌≡◌, map};
ghost use Rattle.sm_syntax.specs.Trees.{item_of};
ghost use Rattle.sm_meaning.specs.Trials.{GoesThrough};
ghost use Rattle.sm_meaning.specs.Expansions.{Expansion};
ghost use Rattle.sm_meaning.specs.Models.{with_item, with_items, item_tried, items_tried};
ghost use Rattle.sm_declarations.specs.Making.{IsMakingOf, IsOfSome};

use sm_declarations::{Making, index, variable};
use sm_meaning::ExpandRefusal;
use sm_posts::post;
use sm_syntax::Item;
use std::alloc::Global;

/// One more item.
fn add_item<'t>(
    alloc: Global,
    made: &mut Making<'t>,
    visited: &mut u64,
    item: &'t Item,
) -> Result<(), ExpandRefusal>
    requires { IsOfSome made.old }
    ensures { (e : Expansion) → IsMakingOf e made.old →
        GoesThrough (item_tried (item_of item.now) e) visited.old visited.new (λ _. IsMakingOf (with_item (item_of item.now) e) made.new) result }
{
    match item {
        Item::Index {
            name,
            least,
            greatest,
            ..
        } => index(alloc, made, visited, name, least, greatest),
        Item::Var {
            name,
            sets,
            kind,
            ..
        } => variable(alloc, made, visited, name, sets.as_slice(), kind),
        Item::Post {
            forall,
            cons,
            tags,
            ..
        } => post(alloc, made, visited, forall, cons, tags.as_slice()),
    }
}

/// All items, in the order of the text.
///
/// # Errors
///
/// The first that is refused.
pub(crate) fn add_items<'t>(
    alloc: Global,
    made: &mut Making<'t>,
    visited: &mut u64,
    items: &'t [Item],
) -> Result<(), ExpandRefusal>
    requires { IsOfSome made.old }
    ensures { (e : Expansion) → IsMakingOf e made.old →
        GoesThrough (items_tried (map item_of items.now) e) visited.old visited.new (λ _. IsMakingOf (with_items (map item_of items.now) e) made.new) result }
{
    for item in items {
        add_item(alloc, made, visited, item)?;
    }
    Ok(())
}
