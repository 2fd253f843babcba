//! Formulas over literals, and the clauses that say the same.
//!
//! A clause is a list of literals of which at least one is to be true. Where each variable has a whole value, all
//! clauses of a formula hold exactly where the formula does. A formula may have exponentially many clauses, so they
//! are counted first.
#![tactic(auto)]

ghost use Rattle.std.specs.Prelude.{◌≡◌, List, map};
ghost use Rattle.sm_kinds.specs.declared.literal.Literal.{Literal};
ghost use Rattle.sm_clausify.specs.Propositions.{Proposition, literal, negation, conjunction, disjunction, implication, equivalence, parts_of};
ghost use Rattle.sm_clausify.specs.Counting.{counts_of, literal_counts, flipped_counts, all_counts, any_counts, implied_counts, equivalent_counts};

mod bounds;
mod build;
mod clausify;
mod counts;
mod formula;
mod nots;
mod tally;

pub use bounds::has_small_bounds;
pub use clausify::{ClauseRefusal, clauses};
pub use counts::Counts;
pub use formula::Formula;

/// Laws: the counts of a formula are made of those of its parts, as [`Counts`] makes them. So what is folded from the
/// counts of parts is the count of the formula that they make, which need not be built for it.
pub fn counts_compose()
    ensures lit { (l : Literal) → counts_of (literal l) ≡ literal_counts }
    ensures not { (p : Proposition) → counts_of (negation p) ≡ flipped_counts (counts_of p) }
    ensures all { (ps : List Proposition) → counts_of (conjunction (parts_of ps)) ≡ all_counts (map counts_of ps) }
    ensures any { (ps : List Proposition) → counts_of (disjunction (parts_of ps)) ≡ any_counts (map counts_of ps) }
    ensures implies { (p q : Proposition) → counts_of (implication p q) ≡ implied_counts (counts_of p) (counts_of q) }
    ensures iff { (p q : Proposition) → counts_of (equivalence p q) ≡ equivalent_counts (counts_of p) (counts_of q) }
{}
