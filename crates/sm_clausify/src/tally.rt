//! The counts of a formula and of each of its parts, found once.
ghost use Rattle.std.specs.Prelude.{◌≡◌, ◌∷◌, [], IfOk, map};
ghost use Rattle.sm_clausify.specs.Counting.{literal_counts, all_counts, any_counts};
ghost use Rattle.sm_clausify.specs.Tallies.{counts_in, flipped_if, tally_of, tally_with};

use crate::counts::Counts;
use crate::formula::Formula;
use crate::nots::behind_nots;
use sqlite_items::Items;
use std::alloc::{AllocError, Global};

/// The counts of a formula, and the tallies of its parts. A `not` has the parts of what stands behind it.
#[derive(Drop)]
pub(crate) struct Tally {
    pub counts: Counts,
    pub parts: Items<Tally>,
}

/// The counts of all of the parts together.
fn all_of(parts: &[Tally]) -> Counts
    ensures { result ≡ all_counts (map counts_in parts.now) }
{
    let mut all = Counts::all_of_nothing();
    for part in parts {
        all = all.and(part.counts);
    }
    all
}

/// The counts of any of the parts.
fn any_of(parts: &[Tally]) -> Counts
    ensures { result ≡ any_counts (map counts_in parts.now) }
{
    let mut any = Counts::any_of_nothing();
    for part in parts {
        any = any.or(part.counts);
    }
    any
}

/// The tally of a literal.
fn of_literal(alloc: Global) -> Tally
    ensures { result ≡ tally_with literal_counts [] }
{
    Tally {
        counts: Counts::literal(),
        parts: Items::new(alloc),
    }
}

/// The tally of `and` over parts.
fn of_all(parts: Items<Tally>) -> Tally
    ensures { result ≡ tally_with (all_counts (map counts_in parts)) parts }
{
    Tally {
        counts: all_of(parts.as_slice()),
        parts,
    }
}

/// The tally of `or` over parts.
fn of_any(parts: Items<Tally>) -> Tally
    ensures { result ≡ tally_with (any_counts (map counts_in parts)) parts }
{
    Tally {
        counts: any_of(parts.as_slice()),
        parts,
    }
}

/// The tally of two parts that have these counts together.
fn of_two(alloc: Global, counts: Counts, first: Tally, second: Tally) -> Result<Tally, AllocError>
    ensures { IfOk result (λ t. t ≡ tally_with counts (first ∷ second ∷ [])) }
{
    let mut parts = Items::new(alloc);
    parts.push(first)?;
    parts.push(second)?;
    Ok(Tally { counts, parts })
}

/// The tally, or that of the negation behind an odd number of `not`s.
fn flipped_if(is_odd: bool, tally: Tally) -> Tally
    ensures { result ≡ flipped_if is_odd tally }
{
    if is_odd {
        Tally {
            counts: tally.counts.flipped(),
            parts: tally.parts,
        }
    } else {
        tally
    }
}

/// The tallies of formulas.
#[cycle(tallying)]
fn tallies_of(alloc: Global, formulas: &[Formula]) -> Result<Items<Tally>, AllocError>
    ensures { IfOk result (λ ts. ts ≡ map tally_of formulas.now) }
{
    let mut tallies = Items::new(alloc);
    for formula in formulas {
        tallies.push(tally_of(alloc, formula)?)?;
    }
    Ok(tallies)
}

/// The tally of a formula.
#[cycle(tallying)]
pub(crate) fn tally_of(alloc: Global, formula: &Formula) -> Result<Tally, AllocError>
    ensures { IfOk result (λ t. t ≡ tally_of formula.now) }
{
    let (inner, is_odd) = behind_nots(formula);
    match inner {
        Formula::Lit(_) => Ok(flipped_if(is_odd, of_literal(alloc))),
        Formula::Not(_) => unreachable!(),
        Formula::And(parts) => {
            let parts = tallies_of(alloc, parts.as_slice())?;
            Ok(flipped_if(is_odd, of_all(parts)))
        }
        Formula::Or(parts) => {
            let parts = tallies_of(alloc, parts.as_slice())?;
            Ok(flipped_if(is_odd, of_any(parts)))
        }
        Formula::Implies(first, second) => {
            let first = tally_of(alloc, first.get())?;
            let second = tally_of(alloc, second.get())?;
            let counts = first.counts.implies(second.counts);
            Ok(flipped_if(is_odd, of_two(alloc, counts, first, second)?))
        }
        Formula::Iff(first, second) => {
            let first = tally_of(alloc, first.get())?;
            let second = tally_of(alloc, second.get())?;
            let counts = first.counts.iff(second.counts);
            Ok(flipped_if(is_odd, of_two(alloc, counts, first, second)?))
        }
    }
}
