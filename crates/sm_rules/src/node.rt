//! The nodes of a log's tree.
use crate::objectives::raise_first;
use sm_flat::{Flat, Literal};
use sm_frac::Frac;
use sm_step::Short;
use sm_store::Store;
use std::alloc::AllocError;
use std::marker::Model;

/// How far a node was split.
#[derive(Clone, Copy, Debug, PartialEq, Eq)]
pub enum Status {
    /// It has no child, and isn't closed.
    Open,
    /// It has one child, whose literal this is.
    Half(Literal),
    /// It has two children; this is the literal of the first.
    Split(Literal),
}

/// A node whose own tree isn't refuted.
#[derive(Drop)]
pub(crate) struct Node {
    pub number: u64,
    /// The number of its parent; the root is its own.
    pub parent: u64,
    /// What narrowed its parent's store to its own, in order.
    pub literals: Short<Literal>,
    /// One lower bound a goal on what solutions in the node cost, goals taken as minimised.
    pub floors: Vec<Frac>,
    pub status: Status,
}

impl Model for Node {
    ghost use Rattle.std.specs.Prelude.{map};
    ghost use Rattle.sm_step.specs.Verdicts.{parts_of};
    ghost use Rattle.sm_rules.specs.Nodes.{KeptNode};

    ghost Value = { KeptNode };

    ghost view = { λ n. record { number = n.number; parent = n.parent; store = n.literals; floors = map parts_of n.floors.items; status = n.status } };
}

impl Node {
    ghost use Rattle.std.specs.Prelude.{◌≡◌, ◌≤◌, ◌^◌, ◌↔◌, length, map, unsigned_abs, IsTrue, IfSome, IfNone, OnOk, OnErr};
    ghost use Rattle.sm_kinds.specs.Literals.{complement};
    ghost use Rattle.sm_kinds.specs.declared.literal.Literal.{Literal as Stated};
    ghost use Rattle.sm_step.specs.Verdicts.{parts_of};
    ghost use Rattle.sm_rules.specs.Nodes.{TakesChild};
    ghost use Rattle.sm_rules.specs.Halves.{HasOneChild};
    ghost use Rattle.sm_rules.specs.KeptNodes.{IsStatusKnown, marked, narrowed_node, raised_node};
    ghost use Rattle.sm_store.specs.Stores.{IsStoreOf};

    /// The number.
    pub(crate) fn number(&self) -> u64
        ensures { result ≡ self.now.number }
    {
        self.number
    }

    /// The number of its parent.
    pub(crate) fn parent(&self) -> u64
        ensures { result ≡ self.now.parent }
    {
        self.parent
    }

    /// What narrowed its parent's store to its own, in order.
    pub(crate) fn literals(&self) -> &[Literal]
        ensures { result.now ≡ self.now.store }
    {
        self.literals.as_slice()
    }

    /// The floors, goal by goal.
    pub(crate) fn floors(&self) -> &[Frac]
        ensures { map parts_of result.now ≡ self.now.floors }
    {
        self.floors.as_slice()
    }

    /// How far it was split.
    pub(crate) fn status(&self) -> Status
        ensures { result ≡ self.now.status }
    {
        self.status
    }

    /// It has one child more, of this literal.
    pub(crate) fn mark(&mut self, literal: &Literal)
        requires { TakesChild self.old.status }
        ensures { self.new ≡ marked self.old literal.now }
    {
        self.status = match self.status {
            Status::Open => Status::Half(*literal),
            Status::Half(first) | Status::Split(first) => Status::Split(first),
        };
    }
    /// These literals narrow its store too.
    pub(crate) fn narrow(&mut self, literals: &[Literal]) -> Result<(), AllocError>
        ensures ok { OnOk result (self.new ≡ narrowed_node self.old literals.now) }
        ensures err { OnErr result (self.new ≡ self.old) }
    {
        self.literals.extend_from_slice(literals)
    }

    /// Its first floor is raised to what the first goal costs at least over the boxes of its store, where that is greater.
    pub(crate) fn raise(&mut self, flat: &Flat, store: &Store)
        requires of { IsStoreOf flat.now store.now }
        requires floors { length self.old.floors ≡ length flat.now.goals }
        ensures { self.new ≡ raised_node flat.now store.now self.old }
    {
        raise_first(&mut self.floors, flat.goals(), store);
    }
}
