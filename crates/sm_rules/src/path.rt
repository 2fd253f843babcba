//! Stores made anew from the declared one and the literals above a node.
ghost use Rattle.std.specs.Prelude.{◌≡◌, ◌<◌, List, All, IfOk, IfSome, length};
ghost use Rattle.sm_store.specs.Stores.{Extent, narrow_all};
ghost use Rattle.sm_rules.specs.Nodes.{KeptNode};
ghost use Rattle.sm_rules.specs.Places.{AreRising, at_place};
ghost use Rattle.sm_rules.specs.KeptNodes.{AreKnown, IsNodeKnown, IsHeld, narrow_along, nodes_over, store_or};

use crate::node::Node;
use crate::tree::place_of;
use sm_flat::Literal;
use sm_store::Store;
use std::alloc::{AllocError, Global};

/// Narrows a store by literals, in order.
pub(crate) fn narrow_by(store: &mut Store, literals: &[Literal])
    requires { AreKnown (length store.old) literals.now }
    ensures { store.new ≡ narrow_all store.old literals.now }
{
    for literal in literals {
        store.narrow(literal);
    }
}

/// Narrows a store by the literals of the nodes at the places of a path, the last place first.
fn narrow_by_path(store: &mut Store, nodes: &[Node], path: &[usize])
    requires places { All (λ p. p < length nodes.now) path.now }
    requires known { All (λ (n : KeptNode). IsNodeKnown (length store.old) n) nodes.now }
    ensures { store.new ≡ narrow_along store.old nodes.now path.now }
{
    let mut rest = path.len();
    while rest > 0 {
        rest -= 1;
        narrow_by(store, nodes[path[rest]].literals());
    }
}

/// The places from a node up to the root. A parent is looked for among the nodes before its child, so the path ends.
fn path_from(alloc: Global, nodes: &[Node], place: usize) -> Result<Vec<usize>, AllocError>
    requires place { place < length nodes.now }
    requires rising { AreRising nodes.now }
    ensures places { IfOk result (λ path. All (λ p. p < length nodes.now) path.items) }
    ensures path { IfOk result (λ path. (declared : List Extent) → narrow_along declared nodes.now path.items ≡ (at_place (nodes_over declared nodes.now) place).store) }
{
    let mut path = Vec::new(alloc);
    let mut next = Some(place);
    while let Some(at) = next {
        path.push(at)?;
        next = place_of(&nodes[..at], nodes[at].parent());
    }
    Ok(path)
}

/// The store of the node at a place.
fn store_at(
    alloc: Global,
    declared: &Store,
    nodes: &[Node],
    place: usize,
) -> Result<Store, AllocError>
    requires place { place < length nodes.now }
    requires rising { AreRising nodes.now }
    requires known { All (λ (n : KeptNode). IsNodeKnown (length declared.now) n) nodes.now }
    ensures { IfOk result (λ s. s ≡ (at_place (nodes_over declared.now nodes.now) place).store) }
{
    let path = path_from(alloc, nodes, place)?;
    let mut store = declared.copy(alloc)?;
    narrow_by_path(&mut store, nodes, path.as_slice());
    Ok(store)
}

/// The store of the node at a place, made anew; none where the node is the focus, whose store is there.
pub(crate) fn moved_store(
    alloc: Global,
    declared: &Store,
    nodes: &[Node],
    focus: u64,
    store: &Store,
    place: usize,
) -> Result<Option<Store>, AllocError>
    requires place { place < length nodes.now }
    requires rising { AreRising nodes.now }
    requires known { All (λ (n : KeptNode). IsNodeKnown (length declared.now) n) nodes.now }
    requires held { All (IsHeld focus store.now) (nodes_over declared.now nodes.now) }
    ensures { IfOk result (λ moved. store_or moved store.now ≡ (at_place (nodes_over declared.now nodes.now) place).store) }
{
    if nodes[place].number() == focus {
        return Ok(None);
    }
    let other = store_at(alloc, declared, nodes, place)?;
    Ok(Some(other))
}
