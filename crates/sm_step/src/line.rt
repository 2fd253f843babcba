//! Lines of a log.
use crate::row::{Col, RowRef, Term};
use crate::rule::Rule;
use crate::short::Short;
use crate::verdict::Verdict;
use sm_flat::Literal;
use sm_frac::{Frac, Op};

/// What an inference comes to.
#[derive(Drop)]
pub enum Outcome {
    /// The node has no solution.
    Close,
    /// The literals hold, each narrowing in its turn.
    Literals(Short<Literal>),
}

/// Items of a packing's group.
#[derive(Drop)]
pub struct Listed {
    pub group: u32,
    pub items: Short<u32>,
}

/// Items of a packing's group, with a weight.
#[derive(Drop)]
pub struct Pattern {
    pub group: u32,
    pub items: Short<u32>,
    pub weight: i128,
}

/// The program whose arithmetic passed the range.
#[derive(Drop)]
pub enum NorangeOf {
    Relax,
    Leaf,
    Pack { k: u32, patterns: Short<Listed> },
}

/// One line of a log, which is one step of the search.
#[derive(Drop)]
pub enum Line {
    /// The first line.
    Header {
        version: u32,
    },
    /// A child opens under a parent, and becomes the focus.
    Node {
        id: u64,
        parent: u64,
        literal: Literal,
    },
    /// The focus moves.
    At {
        id: u64,
    },
    /// An inference at the focus.
    Infer {
        rule: Rule,
        result: Outcome,
    },
    /// A lemma is false or unit at the focus.
    Lemma {
        lemma: u64,
        result: Outcome,
    },
    /// The literal holds, since its complement contradicts a combination of rows.
    CutoffNone {
        literal: Literal,
        terms: Short<Term>,
    },
    /// The literal holds, since its complement is no better than the best.
    CutoffCost {
        literal: Literal,
        terms: Short<Term>,
    },
    /// The same at a level.
    CutoffCostLevel {
        literal: Literal,
        level: u32,
        terms: Short<Term>,
    },
    /// A combination raises the floor of the first level.
    Floor {
        terms: Short<Term>,
    },
    /// A combination raises the floor of a level.
    FloorLevel {
        level: u32,
        terms: Short<Term>,
    },
    /// A combination of rows contradicts the focus.
    CloseNone {
        terms: Short<Term>,
    },
    /// A combination of rows shows that the focus is no better than the best.
    CloseCost {
        terms: Short<Term>,
    },
    /// The same at a level.
    CloseCostLevel {
        level: u32,
        terms: Short<Term>,
    },
    /// The focus's floors show it.
    CloseFloor,
    /// The fixed values violate a constraint.
    Violated {
        k: u32,
    },
    /// A point of the relaxation.
    Pair {
        denominator: i64,
        values: Short<i128>,
    },
    /// A step of a program's arithmetic passed the range.
    Norange {
        of: NorangeOf,
        basis: Short<u32>,
        op: Op,
        left: Frac,
        right: Frac,
    },
    /// A Lagrangian bound of a packing.
    Price {
        k: u32,
        denominator: i64,
        prices: Short<i128>,
        scale: i64,
        patterns: Short<Pattern>,
    },
    /// No packing exists.
    Farkas {
        k: u32,
        denominator: i64,
        prices: Short<i128>,
    },
    /// A rounded combination joins the cuts.
    CutGomory {
        terms: Short<Term>,
    },
    /// A cover of a row joins the cuts.
    CutCover {
        row: RowRef,
        columns: Short<Col>,
    },
    /// The nodes of a circuit are left once at least.
    CutLeave {
        k: u32,
        nodes: Short<u32>,
    },
    /// A frame begins, under these literals.
    Assume {
        literals: Short<Literal>,
    },
    /// The frame ends, refuted.
    Qed,
    /// The frame ends, given up.
    Drop,
    /// A witness of a sub's constraints.
    Feasible {
        sub: u32,
        denominator: i64,
        values: Short<i128>,
    },
    /// A solution that is better than the best.
    Sol {
        denominator: i64,
        values: Short<i128>,
    },
    /// A row gets a name.
    Name {
        name: u64,
        row: RowRef,
    },
    /// A lemma is given up.
    ForgetLemma {
        lemma: u64,
    },
    /// A cut is given up.
    ForgetCut {
        cut: u64,
    },
    /// The last line.
    Verdict(Verdict),
}
