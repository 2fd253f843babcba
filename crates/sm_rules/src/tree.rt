//! The tree of a log: the nodes whose own trees aren't refuted.
ghost use Rattle.std.specs.Prelude.{◌≡◌, ◌≢◌, ◌+◌, ◌<◌, ◌≤◌, ◌^◌, ◌↔◌, ℕ, true, false, All, Contains, IsTrue, IsSome, IfOk, OnOk, OnErr, IfSome, IfNone, length, map, drop, slice_set, unsigned_abs};
ghost use Rattle.sm_flat.specs.Limits.{IsFlat};
ghost use Rattle.sm_kinds.specs.Literals.{complement};
ghost use Rattle.sm_store.specs.Stores.{Extent, declared, narrow, narrow_all, IsStoreOf};
ghost use Rattle.sm_step.specs.Verdicts.{parts_of};
ghost use Rattle.sm_rules.specs.Nodes.{NodeView, KeptNode, no_node, is_split, TakesChild, LawfulChild};
ghost use Rattle.sm_rules.specs.Halves.{HasOneChild, IsLastHalf};
ghost use Rattle.sm_rules.specs.Sound.{IsNodeOf};
ghost use Rattle.sm_rules.specs.Trees.{node_at, without_node, pruned, has_no_child, is_done, focus_of, has_empty, close_focus, with_focus, narrowed_focus, narrow_focus, raise_focus, open_child, root_of, IsRefuted};
ghost use Rattle.sm_rules.specs.Places.{AreRising, IsPlace, at_place};
ghost use Rattle.sm_rules.specs.KeptNodes.{AreKnown, IsNodeKnown, IsOutcomeKnown, with_kept_child, with_narrowed, with_raised, store_or, nodes_over};
ghost use Rattle.sm_rules.specs.Transitions.{concluded};

use crate::laws;
use crate::node::{Node, Status};
use crate::objectives::{least_floors, raise_floors};
use crate::path::{moved_store, narrow_by};
use sm_flat::{Flat, Literal};
use sm_frac::Frac;
use sm_step::{Outcome, Short};
use sm_store::Store;
use std::alloc::{AllocError, Global};
use std::marker::Model;

/// The nodes whose own trees aren't refuted, in order of their numbers, and the node at which the log stands.
#[derive(Drop)]
pub(crate) struct Tree {
    declared: Store,
    nodes: Vec<Node>,
    /// How many nodes were opened under another, which is the greatest number that a node had.
    opened: u64,
    focus: u64,
    /// The store of the focus, while it is left. No other node has a store of its own.
    store: Store,
}

impl Model for Tree {
    ghost use Rattle.std.specs.Prelude.{◌+◌};
    ghost use Rattle.sm_rules.specs.Trees.{Tree as TreeView};
    ghost use Rattle.sm_rules.specs.KeptNodes.{nodes_over, IsKept};

    ghost Value = { TreeView };

    ghost view = { λ t. record { nodes = nodes_over t.declared t.nodes.items; count = t.opened + 1; focus = t.focus } };

    ghost invariant = { λ t. IsKept t.declared t.nodes.items (t.opened + 1) t.focus t.store };
}

/// The place of the node of a number, by bisection.
pub(crate) fn place_of(nodes: &[Node], number: u64) -> Option<usize>
    requires { AreRising nodes.now }
    ensures found { IfSome result (λ i. IsPlace nodes.now i number) }
    ensures none { IfNone result (All (λ (n : KeptNode). n.number ≢ number) nodes.now) }
{
    let mut low = 0;
    let mut high = nodes.len();
    while low < high {
        let middle = low + (high - low) / 2;
        let found = nodes[middle].number();
        if found == number {
            return Some(middle);
        }
        if found < number {
            low = middle + 1;
        } else {
            high = middle;
        }
    }
    None
}

fn is_split(status: Status) -> bool
    ensures { result ≡ is_split status }
{
    match status {
        Status::Open | Status::Half(_) => false,
        Status::Split(_) => true,
    }
}

/// Whether none of these nodes is a child of the node of that number.
fn has_no_child(number: u64, nodes: &[Node]) -> bool
    ensures { result ≡ has_no_child number nodes.now }
{
    nodes.iter().all(|n| n.parent() != number)
}

/// Whether the node at this place has two children, and neither is left.
fn is_done(nodes: &[Node], place: usize) -> bool
    requires { place < length nodes.now }
    ensures { result ≡ is_done (at_place nodes.now place) (drop (place + 1) nodes.now) }
{
    let node = &nodes[place];
    is_split(node.status()) && has_no_child(node.number(), &nodes[place + 1..])
}

/// The place of the node of a number, where it has two children and neither is left.
fn done_place(nodes: &[Node], number: u64) -> Option<usize>
    requires { AreRising nodes.now }
    ensures found { IfSome result (λ i. IsPlace nodes.now i number × (is_done (at_place nodes.now i) (drop (i + 1) nodes.now) ≡ true)) }
    ensures none { IfNone result ((i : ℕ) → IsPlace nodes.now i number → is_done (at_place nodes.now i) (drop (i + 1) nodes.now) ≡ false) }
{
    let place = place_of(nodes, number)?;
    if is_done(nodes, place) {
        Some(place)
    } else {
        None
    }
}

/// Drops the node at this place, and with it each node above whose own tree is refuted then.
fn drop_refuted(nodes: &mut Vec<Node>, place: usize)
    requires place { place < length nodes.old.items }
    requires rising { AreRising nodes.old.items }
    requires kept { pruned nodes.old.items ≡ nodes.old.items }
    ensures { nodes.new.items ≡ pruned (without_node nodes.old.items (at_place nodes.old.items place).number) }
{
    let mut refuted = Some(place);
    while let Some(i) = refuted {
        let parent = nodes.remove(i).parent();
        refuted = done_place(nodes, parent);
    }
}

/// The greatest-numbered node with one child, with that child's literal.
fn last_half(nodes: &[Node]) -> Option<(u64, Literal)>
    requires { AreRising nodes.now }
    ensures some { IfSome result (λ h. IsLastHalf nodes.now h.0 (complement h.1) × ((node_at nodes.now h.0).status ≡ Status.Half h.1)) }
    ensures none { IfNone result (All (λ (n : KeptNode). HasOneChild n.status → ⊥) nodes.now) }
{
    let mut rest = nodes.len();
    while rest > 0 {
        rest -= 1;
        let node = &nodes[rest];
        if let Status::Half(first) = node.status() {
            return Some((node.number(), first));
        }
    }
    None
}

/// Opens a child under the node at a place. The store becomes the child's: it is that of the node, or another is given in its place.
fn open_under(
    alloc: Global,
    flat: &Flat,
    nodes: &mut Vec<Node>,
    store: &mut Store,
    moved: Option<Store>,
    place: usize,
    number: u64,
    literal: &Literal,
) -> Result<(), AllocError>
    requires place { place < length nodes.old.items }
    requires takes { TakesChild (at_place nodes.old.items place).status }
    requires floors { length (at_place nodes.old.items place).floors ≡ length flat.now.goals }
    requires of { IsStoreOf flat.now (store_or moved store.old) }
    requires known { literal.now.var < length (store_or moved store.old) }
    ensures nodes { OnOk result (nodes.new.items ≡ with_kept_child flat.now nodes.old.items place number literal.now (narrow (store_or moved store.old) literal.now)) }
    ensures store { OnOk result (store.new ≡ narrow (store_or moved store.old) literal.now) }
    ensures err { OnErr result ((nodes.new.items ≡ nodes.old.items) × (store.new ≡ store.old)) }
{
    let parent = nodes[place].number();
    let mut floors = Vec::from_slice(alloc, nodes[place].floors())?;
    let literals = Short::from_slice(alloc, &[*literal])?;
    nodes.reserve(1)?;
    if let Some(other) = moved {
        *store = other;
    }
    store.narrow(literal);
    raise_floors(&mut floors, flat.goals(), store);
    nodes[place].mark(literal);
    nodes
        .push(Node {
            number,
            parent,
            literals,
            floors,
            status: Status::Open,
        })
        .unwrap();
    Ok(())
}

/// Narrows the node at a place by the literals, and with it the store, which is the node's. After want of memory all is as before.
fn narrow_at(
    nodes: &mut Vec<Node>,
    store: &mut Store,
    place: usize,
    literals: &[Literal],
) -> Result<(), AllocError>
    requires place { place < length nodes.old.items }
    requires known { AreKnown (length store.old) literals.now }
    ensures nodes { OnOk result (nodes.new.items ≡ with_narrowed nodes.old.items place literals.now) }
    ensures store { OnOk result (store.new ≡ narrow_all store.old literals.now) }
    ensures err { OnErr result ((nodes.new.items ≡ nodes.old.items) × (store.new ≡ store.old)) }
{
    nodes[place].narrow(literals)?;
    narrow_by(store, literals);
    Ok(())
}

/// Raises the first floor of the node at a place, whose store this is.
fn raise_at(flat: &Flat, nodes: &mut Vec<Node>, store: &Store, place: usize)
    requires place { place < length nodes.old.items }
    requires of { IsStoreOf flat.now store.now }
    requires floors { length (at_place nodes.old.items place).floors ≡ length flat.now.goals }
    ensures { nodes.new.items ≡ with_raised flat.now store.now nodes.old.items place }
{
    nodes[place].raise(flat, store);
}

/// Whether the literal may open a first child under an open node, whose store is the first of these, where there is one.
fn splits_either(moved: &Option<Store>, store: &Store, literal: &Literal) -> bool
    ensures { IsTrue result ↔ LawfulChild (store_or moved.now store.now) Status.Open literal.now }
{
    match moved {
        Some(other) => laws::splits(other, literal),
        None => laws::splits(store, literal),
    }
}

/// Whether the literal is the complement of the other.
fn is_complement(literal: &Literal, first: &Literal) -> bool
    requires { unsigned_abs first.now.bound ≤ 2 ^ 32 }
    ensures { IsTrue result ↔ (literal.now ≡ complement first.now) }
{
    *literal == first.complement()
}

impl Tree {
    /// The tree of one open node with the declared store.
    pub(crate) fn root(alloc: Global, flat: &Flat) -> Result<Tree, AllocError>
        ensures root { IfOk result (λ t. t ≡ root_of flat.now (declared flat.now.vars)) }
        ensures limits { OnOk result (IsFlat flat.now) }
    {
        let declared = Store::declared(alloc, flat)?;
        let store = declared.copy(alloc)?;
        let floors = least_floors(alloc, flat.goals(), &store)?;
        let mut nodes = Vec::new(alloc);
        nodes.push(Node {
            number: 0,
            parent: 0,
            literals: Short::new(alloc),
            floors,
            status: Status::Open,
        })?;
        Ok(Tree {
            declared,
            nodes,
            opened: 0,
            focus: 0,
            store,
        })
    }

    /// The status of the node of a number, where it is left.
    pub(crate) fn status(&self, number: u64) -> Option<Status>
        ensures found { IfSome result (λ s. s ≡ (node_at self.now.nodes number).status) }
        ensures none { IfNone result (node_at self.now.nodes number ≡ no_node) }
    {
        let place = place_of(&self.nodes, number)?;
        Some(self.nodes[place].status())
    }

    /// The floors of the node of a number, where it is left.
    pub(crate) fn floors(&self, number: u64) -> Option<&[Frac]>
        ensures found { IfSome result (λ fs. map parts_of fs.now ≡ (node_at self.now.nodes number).floors) }
        ensures none { IfNone result (node_at self.now.nodes number ≡ no_node) }
    {
        let place = place_of(&self.nodes, number)?;
        Some(self.nodes[place].floors())
    }

    /// The store of the focus, which is left.
    pub(crate) fn store(&self) -> &Store
        requires { (focus_of self.now).status ≡ Status.Open }
        ensures { result.now ≡ (focus_of self.now).store }
    {
        &self.store
    }

    /// The number of the focus.
    pub(crate) fn focus(&self) -> u64
        ensures { result ≡ self.now.focus }
    {
        self.focus
    }

    /// How many nodes were opened under another.
    pub(crate) fn opened(&self) -> u64
        ensures { result + 1 ≡ self.now.count }
    {
        self.opened
    }

    /// How many nodes are left.
    pub(crate) fn len(&self) -> usize
        ensures { result ≡ length self.now.nodes }
    {
        self.nodes.as_slice().len()
    }

    /// Whether no node is left.
    pub(crate) fn is_refuted(&self) -> bool
        ensures { IsTrue result ↔ IsRefuted self.now }
    {
        self.nodes.as_slice().is_empty()
    }

    /// The greatest-numbered node with one child, with the complement of that child's literal.
    pub(crate) fn half(&self) -> Option<(u64, Literal)>
        ensures some { IfSome result (λ h. IsLastHalf self.now.nodes h.0 h.1) }
        ensures none { IfNone result (All (λ (n : NodeView). HasOneChild n.status → ⊥) self.now.nodes) }
    {
        let (number, first) = last_half(&self.nodes)?;
        Some((number, first.complement()))
    }

    /// Whether the literal may open a child under the node of a number.
    pub(crate) fn is_lawful_child(
        &self,
        alloc: Global,
        parent: u64,
        literal: &Literal,
    ) -> Result<bool, AllocError>
        ensures { IfOk result (λ r. IsTrue r ↔ LawfulChild (node_at self.now.nodes parent).store (node_at self.now.nodes parent).status literal.now) }
    {
        let Some(place) = place_of(&self.nodes, parent) else {
            return Ok(false);
        };
        match self.nodes[place].status() {
            Status::Open => {
                let moved = moved_store(
                    alloc,
                    &self.declared,
                    &self.nodes,
                    self.focus,
                    &self.store,
                    place,
                )?;
                Ok(splits_either(&moved, &self.store, literal))
            }
            Status::Half(first) => Ok(is_complement(literal, &first)),
            Status::Split(_) => Ok(false),
        }
    }

    /// Closes the focus: it is dropped, and with it each node above whose own tree is refuted then.
    pub(crate) fn close_focus(&mut self)
        requires open { (focus_of self.old).status ≡ Status.Open }
        requires kept { pruned self.old.nodes ≡ self.old.nodes }
        ensures { self.new ≡ close_focus self.old }
    {
        if let Some(place) = place_of(&self.nodes, self.focus) {
            drop_refuted(&mut self.nodes, place);
        }
    }

    /// Narrows the focus by the literals. After want of memory all is as before.
    fn narrow(&mut self, literals: &[Literal]) -> Result<(), AllocError>
        requires open { (focus_of self.old).status ≡ Status.Open }
        requires known { AreKnown (length (focus_of self.old).store) literals.now }
        ensures ok { OnOk result (self.new ≡ with_focus self.old (narrowed_focus literals.now self.old)) }
        ensures err { OnErr result (self.new ≡ self.old) }
    {
        let Some(place) = place_of(&self.nodes, self.focus) else {
            unreachable!()
        };
        narrow_at(&mut self.nodes, &mut self.store, place, literals)?;
        Ok(())
    }

    /// Whether some variable has no value at the focus.
    fn is_empty(&self) -> bool
        requires { (focus_of self.now).status ≡ Status.Open }
        ensures { result ≡ has_empty (focus_of self.now).store }
    {
        self.store().empty()
    }

    /// Narrows the focus by the literals, and closes it where a variable has no value then. After want of memory all is as before.
    fn narrow_focus(&mut self, literals: &[Literal]) -> Result<(), AllocError>
        requires open { (focus_of self.old).status ≡ Status.Open }
        requires kept { pruned self.old.nodes ≡ self.old.nodes }
        requires known { AreKnown (length (focus_of self.old).store) literals.now }
        ensures ok { OnOk result (self.new ≡ narrow_focus literals.now self.old) }
        ensures err { OnErr result (self.new ≡ self.old) }
    {
        self.narrow(literals)?;
        if self.is_empty() {
            self.close_focus();
        }
        Ok(())
    }

    /// Closes or narrows the focus, as an inference came out. After want of memory all is as before.
    pub(crate) fn conclude(&mut self, outcome: &Outcome) -> Result<(), AllocError>
        requires open { (focus_of self.old).status ≡ Status.Open }
        requires kept { pruned self.old.nodes ≡ self.old.nodes }
        requires known { IsOutcomeKnown (length (focus_of self.old).store) outcome.now }
        ensures ok { OnOk result (self.new ≡ concluded outcome.now self.old) }
        ensures err { OnErr result (self.new ≡ self.old) }
    {
        match outcome {
            Outcome::Close => {
                self.close_focus();
                Ok(())
            }
            Outcome::Literals(literals) => self.narrow_focus(literals.as_slice()),
        }
    }

    /// Raises the focus's first floor to what the first goal costs at least over the boxes of its store, where that is greater.
    pub(crate) fn raise_focus(&mut self, flat: &Flat)
        requires open { (focus_of self.old).status ≡ Status.Open }
        requires nodes { All (λ (n : NodeView). IsNodeOf flat.now n) self.old.nodes }
        ensures { self.new ≡ raise_focus flat.now self.old }
    {
        if let Some(place) = place_of(&self.nodes, self.focus) {
            raise_at(flat, &mut self.nodes, &self.store, place);
        }
    }

    /// Opens a child under a node; it becomes the focus. After want of memory all is as before.
    pub(crate) fn open_child(
        &mut self,
        alloc: Global,
        flat: &Flat,
        number: u64,
        parent: u64,
        literal: &Literal,
    ) -> Result<(), AllocError>
        requires next { number ≡ self.old.count }
        requires nodes { All (λ (n : NodeView). IsNodeOf flat.now n) self.old.nodes }
        requires lawful { LawfulChild (node_at self.old.nodes parent).store (node_at self.old.nodes parent).status literal.now }
        ensures ok { OnOk result (self.new ≡ open_child flat.now self.old parent literal.now) }
        ensures err { OnErr result (self.new ≡ self.old) }
    {
        let Some(place) = place_of(&self.nodes, parent) else {
            unreachable!()
        };
        let moved = moved_store(
            alloc,
            &self.declared,
            &self.nodes,
            self.focus,
            &self.store,
            place,
        )?;
        open_under(
            alloc,
            flat,
            &mut self.nodes,
            &mut self.store,
            moved,
            place,
            number,
            literal,
        )?;
        self.opened = number;
        self.focus = number;
        Ok(())
    }
}
