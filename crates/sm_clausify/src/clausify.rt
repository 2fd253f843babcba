//! The public call, with its limit.
ghost use Rattle.std.specs.Prelude.{◌≡◌, ◌<◌, ◌≤◌, ℕ, ◌<ℤ◌, pos, IfOk, Err, min, length, false};
ghost use Rattle.sm_kinds.specs.Points.{Point};
ghost use Rattle.sm_kinds.specs.Logic.{satisfies_each};
ghost use Rattle.sm_clausify.specs.Propositions.{meaning, EachLiteral, HasSmallBound};
ghost use Rattle.sm_clausify.specs.Clauses.{clauses_of};
ghost use Rattle.sm_clausify.specs.Counting.{most};
ghost use Rattle.sm_kinds.specs.Limits.{most_clauses};
ghost use Rattle.sm_clausify.specs.Truth.{holds, IsWholeOn};

use crate::build::clauses_at;
use crate::formula::Formula;
use crate::tally::tally_of;
use sm_flat::Clause;
use sm_kinds::MOST_CLAUSES;
use std::alloc::Global;
use thiserror::Error;

/// Why a formula has no list of clauses.
#[derive(Clone, Copy, Debug, PartialEq, Eq, Error)]
pub enum ClauseRefusal {
    /// The formula has more than [`MOST_CLAUSES`] clauses; `count` is how many, or 2^64 - 1 where there are more.
    #[error("the formula has {count} clauses")]
    TooManyClauses { count: u64 },
    #[error("memory ran out")]
    OutOfMemory,
}

/// The clauses of a formula. Negations are pushed to the literals; the clauses of `and` follow each other; those of
/// `or` are, for each clause of the first part in order and each clause of the rest in order, their concatenation.
///
/// # Errors
///
/// `TooManyClauses` exactly where there are more than [`MOST_CLAUSES`], and `OutOfMemory`.
pub fn clauses(alloc: Global, formula: &Formula) -> Result<Vec<Clause>, ClauseRefusal>
    requires { EachLiteral HasSmallBound (meaning formula.now) }
    ensures found { IfOk result (λ v. v.items ≡ clauses_of (meaning formula.now) false) }
    ensures same { IfOk result (λ v. (a : Point) → pos 0 <ℤ a.denominator → IsWholeOn (meaning formula.now) a →
        satisfies_each a v.items ≡ holds (meaning formula.now) a) }
    ensures few { IfOk result (λ v. length v.items ≤ most_clauses) }
    ensures many { (n : ℕ) → result ≡ Err (ClauseRefusal.TooManyClauses n) →
        (most_clauses < length (clauses_of (meaning formula.now) false)) × (n ≡ min (length (clauses_of (meaning formula.now) false)) most) }
{
    let Ok(tally) = tally_of(alloc, formula) else {
        return Err(ClauseRefusal::OutOfMemory);
    };
    let count = tally.counts.clauses();
    if count > MOST_CLAUSES {
        return Err(ClauseRefusal::TooManyClauses { count });
    }
    match clauses_at(alloc, formula, &tally, false) {
        Ok(clauses) => Ok(clauses),
        Err(_) => Err(ClauseRefusal::OutOfMemory),
    }
}
