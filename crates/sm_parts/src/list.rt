//! Lists of expressions in one role.
ghost use Rattle.std.specs.Prelude.{◌≡◌, ◌∷◌, map, option_map};
ghost use Rattle.sm_syntax.specs.Expressions.{expression_of, binding_of};
ghost use Rattle.sm_syntax.specs.Trees.{listing_of};
ghost use Rattle.sm_meaning.specs.Trials.{GoesThrough, each_tried};
ghost use Rattle.sm_meaning.specs.Cases.{listed as listed_of, listed_tried};

use crate::part::{Part, push_node};
use crate::role::Role;
use sm_meaning::ExpandRefusal;
use sm_scopes::{Cases, Scope};
use sm_syntax::{Binders, List};
use sqlite_items::Items;
use std::alloc::Global;
use std::marker::PhantomData;

/// The expressions of a list, each in this role.
struct Row<R>(PhantomData<R>);

impl<T: Drop, R: Role<T>> Part<List, T> for Row<R> {
    ghost binding = { λ l. option_map binding_of l.binders };

    ghost tried = { λ _ s l b. each_tried (λ e. R.tried s e b) (expression_of l.first ∷ map expression_of l.more) };

    ghost makes = { λ _ s l b. map (λ e. R.meant s e b) (expression_of l.first ∷ map expression_of l.more) };

    fn binders<'t>(node: &'t List) -> &'t Option<Binders> {
        &node.binders
    }

    fn push_at<'t>(
        &self,
        alloc: Global,
        scope: &Scope,
        cases: &Cases<'t>,
        visited: &mut u64,
        node: &'t List,
        made: &mut Vec<T>,
    ) -> Result<(), ExpandRefusal> {
        made.push(R::take(alloc, scope, cases, visited, &node.first)?)?;
        for more in node.more.as_slice() {
            made.push(R::take(alloc, scope, cases, visited, more)?)?;
        }
        Ok(())
    }
}

/// What the expressions of a list are in their role, once or for each tuple of the list's binders.
///
/// # Errors
///
/// The first that is refused in the order of the text.
pub fn listed<'t, T: Drop, R: Role<T>>(
    alloc: Global,
    scope: &Scope,
    cases: &Cases<'t>,
    visited: &mut u64,
    list: &'t List,
) -> Result<Items<T>, ExpandRefusal>
    ensures { GoesThrough (listed_tried (R.tried scope.now) (listing_of list.now) scope.now cases.now.tuple) visited.old visited.new
        (λ v. v ≡ listed_of (R.meant scope.now) (listing_of list.now) scope.now.names cases.now.tuple) result }
{
    let mut made = Vec::new(alloc);
    push_node(
        &Row::<R>(PhantomData),
        alloc,
        scope,
        cases,
        visited,
        list,
        &mut made,
    )?;
    Ok(Items::from_vec(made))
}
