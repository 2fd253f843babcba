//! What stands once, or at each tuple of binders.
ghost use Rattle.std.specs.Prelude.{◌≡◌, ◌++◌, List, Option, Some, option_map};
ghost use Rattle.std.specs.List.{flat_map};
ghost use Rattle.sm_syntax.specs.Expressions.{Binding, binding_of};
ghost use Rattle.sm_meaning.specs.Scopes as meaning;
ghost use Rattle.sm_meaning.specs.Scopes.{Tuple};
ghost use Rattle.sm_meaning.specs.Trials.{Trial, GoesThrough, each_tried};
ghost use Rattle.sm_meaning.specs.Cases.{over_cases, over_cases_tried};

use crate::tuples::Tuples;
use sm_meaning::ExpandRefusal;
use sm_scopes::{Cases, Scope};
use sm_syntax::Binders;
use std::alloc::Global;

/// What nodes of a text make, each once or at each tuple of its binders.
pub trait Part<N, T: Drop> {
    /// The binders of a node.
    ghost binding: { N → Option Binding };

    /// What is tried of a node at a tuple.
    ghost tried: { Self → meaning.Scope → N → Tuple → Trial };

    /// What a node makes at a tuple.
    ghost makes: { Self → meaning.Scope → N → Tuple → List T };

    /// The binders of a node.
    fn binders<'t>(node: &'t N) -> &'t Option<Binders>
        ensures { option_map binding_of result.now ≡ binding node.now };

    /// Pushes what a node makes at a tuple.
    fn push_at<'t>(
        &self,
        alloc: Global,
        scope: &Scope,
        cases: &Cases<'t>,
        visited: &mut u64,
        node: &'t N,
        made: &mut Vec<T>,
    ) -> Result<(), ExpandRefusal>
        ensures { GoesThrough (tried self.now scope.now node.now cases.now.tuple) visited.old visited.new
            (λ _. made.new.items ≡ made.old.items ++ makes self.now scope.now node.now cases.now.tuple) result };
}

/// Pushes what a node makes at each tuple that passes.
fn push_at_tuples<'t, N, T: Drop, P: Part<N, T>>(
    part: &P,
    alloc: Global,
    scope: &Scope,
    cases: &Cases<'t>,
    visited: &mut u64,
    binders: &'t Binders,
    node: &'t N,
    made: &mut Vec<T>,
) -> Result<(), ExpandRefusal>
    ensures { GoesThrough (over_cases_tried (Some (binding_of binders.now)) scope.now cases.now.tuple (P.tried part.now scope.now node.now)) visited.old visited.new
        (λ _. made.new.items ≡ made.old.items ++ flat_map (P.makes part.now scope.now node.now) (over_cases (Some (binding_of binders.now)) scope.now.names cases.now.tuple)) result }
{
    let mut tuples = Tuples::of(alloc, scope, cases, binders)?;
    'tuples: while tuples.next(alloc, scope, visited)? {
        part.push_at(alloc, scope, tuples.cases(), visited, node, made)?;
    }
    Ok(())
}

/// Pushes what a node makes, once or at each tuple of its binders.
///
/// # Errors
///
/// The first that is refused in the order of the text.
pub fn push_node<'t, N, T: Drop, P: Part<N, T>>(
    part: &P,
    alloc: Global,
    scope: &Scope,
    cases: &Cases<'t>,
    visited: &mut u64,
    node: &'t N,
    made: &mut Vec<T>,
) -> Result<(), ExpandRefusal>
    ensures { GoesThrough (over_cases_tried (P.binding node.now) scope.now cases.now.tuple (P.tried part.now scope.now node.now)) visited.old visited.new
        (λ _. made.new.items ≡ made.old.items ++ flat_map (P.makes part.now scope.now node.now) (over_cases (P.binding node.now) scope.now.names cases.now.tuple)) result }
{
    match P::binders(node) {
        None => part.push_at(alloc, scope, cases, visited, node, made),
        Some(binders) => push_at_tuples(part, alloc, scope, cases, visited, binders, node, made),
    }
}

/// Pushes what all nodes make, in their order.
///
/// # Errors
///
/// The first that is refused in the order of the text.
pub fn push_all<'t, N, T: Drop, P: Part<N, T>>(
    part: &P,
    alloc: Global,
    scope: &Scope,
    cases: &Cases<'t>,
    visited: &mut u64,
    nodes: &'t [N],
    made: &mut Vec<T>,
) -> Result<(), ExpandRefusal>
    ensures { GoesThrough (each_tried (λ n. over_cases_tried (P.binding n) scope.now cases.now.tuple (P.tried part.now scope.now n)) nodes.now) visited.old visited.new
        (λ _. made.new.items ≡ made.old.items ++ flat_map (λ n. flat_map (P.makes part.now scope.now n) (over_cases (P.binding n) scope.now.names cases.now.tuple)) nodes.now) result }
{
    for node in nodes {
        push_node(part, alloc, scope, cases, visited, node, made)?;
    }
    Ok(())
}
