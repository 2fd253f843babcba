//! The tree of a model: a type for each nonterminal of the grammar, a variant for each of its alternatives, and the
//! place of the first token in each.
use crate::expression::{Binders, Expr};
use crate::formula::Formula;
use crate::place::Place;
use sqlite_items::Items;

/// A name, with the place of its token.
#[derive(Drop)]
pub struct Name {
    pub place: Place,
    pub text: Items<u8>,
}

/// A number of at most 18 digits, with the place of its token.
#[derive(Drop)]
pub struct Number {
    pub place: Place,
    pub value: u64,
}

/// A whole model.
#[derive(Drop)]
pub struct Tree {
    pub place: Place,
    pub items: Items<Item>,
    pub goal: Goal,
}

/// An index set, variables, or constraints.
#[derive(Drop)]
pub enum Item {
    Index {
        place: Place,
        name: Name,
        least: Expr,
        greatest: Expr,
    },
    Var {
        place: Place,
        name: Name,
        /// The index sets of a family; none for a single variable.
        sets: Items<Name>,
        kind: Kind,
    },
    Post {
        place: Place,
        forall: Option<Binders>,
        cons: Cons,
        tags: Items<Tag>,
    },
}

/// The kind of a variable with its declared domain.
#[derive(Drop)]
pub enum Kind {
    Set {
        place: Place,
        values: Values,
    },
    Int {
        place: Place,
        least: Expr,
        greatest: Expr,
    },
    Real {
        place: Place,
        least: Expr,
        greatest: Expr,
    },
}

/// The values of a domain: all between two ends, or those of a list.
#[derive(Drop)]
pub enum Values {
    Range { least: Expr, greatest: Expr },
    List { first: Expr, more: Items<Expr> },
}

/// What is wanted.
#[derive(Drop)]
pub enum Goal {
    Satisfy {
        place: Place,
    },
    /// Aims in the order of their rank.
    Aims {
        place: Place,
        first: Aim,
        more: Items<Aim>,
    },
}

/// What is to become as small or as great as it can.
#[derive(Drop)]
pub enum Aim {
    Minimise { place: Place, expr: Expr },
    Maximise { place: Place, expr: Expr },
}

/// A name bound to an index set.
#[derive(Drop)]
pub struct Bind {
    pub place: Place,
    pub name: Name,
    pub set: Name,
}

/// How a test compares.
#[derive(Clone, Copy)]
pub enum Relation {
    Less,
    AtMost,
    Greater,
    AtLeast,
    Equal,
    Unequal,
}

/// Whether a term is added or subtracted.
#[derive(Clone, Copy)]
pub enum Sign {
    Plus,
    Minus,
}

/// A constraint.
#[derive(Drop)]
pub enum Cons {
    Linear {
        place: Place,
        left: Expr,
        cmp: Cmp,
        right: Expr,
    },
    Logic {
        place: Place,
        formula: Formula,
    },
    When {
        place: Place,
        first: Lit,
        more: Items<Lit>,
        left: Expr,
        cmp: Cmp,
        right: Expr,
    },
    Alldiff {
        place: Place,
        list: List,
    },
    Circuit {
        place: Place,
        list: List,
    },
    Element {
        place: Place,
        index: Expr,
        entries: List,
        value: Expr,
    },
    Choices {
        place: Place,
        choosing: Choosing,
        total: Expr,
        choices: Items<Choice>,
    },
    Cumulative {
        place: Place,
        capacity: Expr,
        tasks: Items<Ctask>,
    },
    Disjunctive {
        place: Place,
        first: Dtask,
        more: Items<Dtask>,
    },
    Packing {
        place: Place,
        cost: Expr,
        capacities: List,
        openings: List,
        loads: Items<Load>,
    },
}

/// Whether choices may be equal, as in `indexsum`, or differ, as in `assign`.
#[derive(Clone, Copy)]
pub enum Choosing {
    Indexsum,
    Assign,
}

/// How a row compares.
#[derive(Drop)]
pub enum Cmp {
    AtMost { place: Place },
    AtLeast { place: Place },
    Equal { place: Place },
}

/// Expressions, for each tuple where there are binders.
#[derive(Drop)]
pub struct List {
    pub place: Place,
    pub first: Expr,
    pub more: Items<Expr>,
    pub binders: Option<Binders>,
}

/// A variable that picks an entry of a table.
#[derive(Drop)]
pub struct Choice {
    pub place: Place,
    pub picks: Expr,
    pub table: List,
    pub binders: Option<Binders>,
}

/// A task that takes a part of a capacity.
#[derive(Drop)]
pub struct Ctask {
    pub place: Place,
    pub start: Expr,
    pub duration: Expr,
    pub demand: Expr,
    pub presence: Option<Lit>,
    pub binders: Option<Binders>,
}

/// A task that takes all there is.
#[derive(Drop)]
pub struct Dtask {
    pub place: Place,
    pub start: Expr,
    pub duration: Expr,
    pub presence: Option<Lit>,
    pub binders: Option<Binders>,
}

/// An item that is packed into a group.
#[derive(Drop)]
pub struct Load {
    pub place: Place,
    pub group: Expr,
    pub size: Expr,
    pub costs: List,
    pub binders: Option<Binders>,
}

/// A literal.
#[derive(Drop)]
pub struct Lit {
    pub place: Place,
    pub left: Expr,
    pub relation: LitRelation,
    pub right: Expr,
}

/// How a literal compares.
#[derive(Clone, Copy)]
pub enum LitRelation {
    AtMost,
    AtLeast,
    Equal,
    Unequal,
}

/// How a constraint is to be worked on.
#[derive(Drop)]
pub enum Tag {
    Infer { place: Place, level: Level },
    Relax { place: Place, relaxing: Relaxing },
    Branch { place: Place, rank: Number },
    Pick { place: Place, picking: Picking },
    Split { place: Place, splitting: Splitting },
    Sub { place: Place, number: Expr },
}

/// How much is inferred.
#[derive(Clone, Copy)]
pub enum Level {
    None,
    Bounds,
    Full,
}

/// Whether a constraint's rows are relaxed.
#[derive(Clone, Copy)]
pub enum Relaxing {
    On,
    None,
}

/// Which variable is picked.
#[derive(Clone, Copy)]
pub enum Picking {
    First,
    Small,
    Point,
}

/// How a domain is split.
#[derive(Clone, Copy)]
pub enum Splitting {
    Half,
    Least,
    Most,
}
