//! The clauses of a formula, built from those of its parts.
//!
//! A part without a clause leaves an `or` without one, however many the other parts have. So no part is built of what
//! has no clause, by the counts of all parts, which were found before.
ghost use Rattle.std.specs.Prelude.{◌≡◌, ◌++◌, ◌∷◌, [], false, IfOk, map, if◌then◌else◌};
ghost use Rattle.sm_clausify.specs.Propositions.{meaning, meanings, EachLiteral, EachLiteralOfAll, HasSmallBound};
ghost use Rattle.sm_clausify.specs.Clauses.{signed, beside, join, clauses_of, in_turn, joined};
ghost use Rattle.sm_clausify.specs.Tallies.{is_not, parts_in, tally_of};

use crate::formula::Formula;
use crate::nots::{behind_nots, turned};
use crate::tally::Tally;
use sm_flat::{Clause, Literal};
use sqlite_items::Items;
use std::alloc::{AllocError, Global};

/// The literal, or its complement.
fn signed(literal: Literal, negated: bool) -> Literal
    requires { HasSmallBound literal }
    ensures { result ≡ signed negated literal }
{
    if negated {
        literal.complement()
    } else {
        literal
    }
}

/// One clause of one literal.
fn unit(alloc: Global, literal: Literal) -> Result<Vec<Clause>, AllocError>
    ensures { IfOk result (λ v. v.items ≡ record { literals = literal ∷ [] } ∷ []) }
{
    let mut literals = Items::new(alloc);
    literals.push(literal)?;
    let mut clauses = Vec::new(alloc);
    clauses.push(Clause { literals })?;
    Ok(clauses)
}

/// The clauses of a formula, or of its negation, by the counts of its parts. What has none is not gone into.
#[cycle(building)]
pub(crate) fn clauses_at(
    alloc: Global,
    formula: &Formula,
    tally: &Tally,
    negated: bool,
) -> Result<Vec<Clause>, AllocError>
    requires small { EachLiteral HasSmallBound (meaning formula.now) }
    requires tally { tally.now ≡ tally_of formula.now }
    ensures { IfOk result (λ v. v.items ≡ clauses_of (meaning formula.now) negated) }
{
    if tally.counts.get(negated) == 0 {
        return Ok(Vec::new(alloc));
    }
    let (inner, is_odd) = behind_nots(formula);
    clauses_behind(
        alloc,
        inner,
        tally.parts.as_slice(),
        turned(is_odd, negated),
    )
}

/// The same of a formula that begins with no `not`.
#[cycle(building)]
fn clauses_behind(
    alloc: Global,
    formula: &Formula,
    tallies: &[Tally],
    negated: bool,
) -> Result<Vec<Clause>, AllocError>
    requires small { EachLiteral HasSmallBound (meaning formula.now) }
    requires tallies { tallies.now ≡ parts_in (tally_of formula.now) }
    requires other { is_not formula.now ≡ false }
    ensures { IfOk result (λ v. v.items ≡ clauses_of (meaning formula.now) negated) }
{
    match formula {
        Formula::Lit(literal) => unit(alloc, signed(*literal, negated)),
        Formula::Not(_) => unreachable!(),
        Formula::And(parts) => gathered(alloc, parts.as_slice(), tallies, !negated, negated),
        Formula::Or(parts) => gathered(alloc, parts.as_slice(), tallies, negated, negated),
        Formula::Implies(first, second) => {
            let first = clauses_at(alloc, first.get(), &tallies[0], !negated)?;
            let second = clauses_at(alloc, second.get(), &tallies[1], negated)?;
            together(alloc, first, second, negated)
        }
        Formula::Iff(first, second) => {
            let (first, second) = (first.get(), second.get());
            let (tally, other) = (&tallies[0], &tallies[1]);
            let forth = tally.counts.implies(other.counts).get(negated) > 0;
            let back = other.counts.implies(tally.counts).get(negated) > 0;
            let a = clauses_if(alloc, first, tally, !negated, forth)?;
            let b = clauses_if(alloc, second, other, negated, forth)?;
            let c = clauses_if(alloc, second, other, !negated, back)?;
            let d = clauses_if(alloc, first, tally, negated, back)?;
            let forth = together(alloc, a, b, negated)?;
            let back = together(alloc, c, d, negated)?;
            together(alloc, forth, back, !negated)
        }
    }
}

/// The clauses of a formula, or of its negation, where they are needed; else none.
#[cycle(building)]
fn clauses_if(
    alloc: Global,
    formula: &Formula,
    tally: &Tally,
    negated: bool,
    is_needed: bool,
) -> Result<Vec<Clause>, AllocError>
    requires small { EachLiteral HasSmallBound (meaning formula.now) }
    requires tally { tally.now ≡ tally_of formula.now }
    ensures { IfOk result (λ v. v.items ≡ if is_needed then clauses_of (meaning formula.now) negated else []) }
{
    if is_needed {
        clauses_at(alloc, formula, tally, negated)
    } else {
        Ok(Vec::new(alloc))
    }
}

/// The clauses of the parts, or of their negations: one after another, or each joined with each.
#[cycle(building)]
fn gathered(
    alloc: Global,
    parts: &[Formula],
    tallies: &[Tally],
    is_and: bool,
    negated: bool,
) -> Result<Vec<Clause>, AllocError>
    requires small { EachLiteralOfAll HasSmallBound (meanings parts.now) }
    requires tallies { tallies.now ≡ map tally_of parts.now }
    ensures { IfOk result (λ v. v.items ≡ if is_and then in_turn (meanings parts.now) negated else joined (meanings parts.now) negated) }
{
    if is_and {
        in_turn(alloc, parts, tallies, negated)
    } else {
        joined(alloc, parts, tallies, negated)
    }
}

/// The clauses of each part, or of its negation, one after another.
#[cycle(building)]
fn in_turn(
    alloc: Global,
    parts: &[Formula],
    tallies: &[Tally],
    negated: bool,
) -> Result<Vec<Clause>, AllocError>
    requires small { EachLiteralOfAll HasSmallBound (meanings parts.now) }
    requires tallies { tallies.now ≡ map tally_of parts.now }
    ensures { IfOk result (λ v. v.items ≡ in_turn (meanings parts.now) negated) }
{
    let mut clauses = Vec::new(alloc);
    for i in 0..parts.len() {
        let mut more = clauses_at(alloc, &parts[i], &tallies[i], negated)?;
        clauses.append(&mut more)?;
    }
    Ok(clauses)
}

/// The clauses of the parts, or of their negations, each joined with each.
#[cycle(building)]
fn joined(
    alloc: Global,
    parts: &[Formula],
    tallies: &[Tally],
    negated: bool,
) -> Result<Vec<Clause>, AllocError>
    requires small { EachLiteralOfAll HasSmallBound (meanings parts.now) }
    requires tallies { tallies.now ≡ map tally_of parts.now }
    ensures { IfOk result (λ v. v.items ≡ joined (meanings parts.now) negated) }
{
    let mut clauses = Vec::new(alloc);
    clauses.push(Clause {
        literals: Items::new(alloc),
    })?;
    for i in 0..parts.len() {
        let others = clauses_at(alloc, &parts[i], &tallies[i], negated)?;
        clauses = product(alloc, clauses, others.as_slice())?;
    }
    Ok(clauses)
}

/// The clauses of two parts: one after another, or each joined with each.
fn together(
    alloc: Global,
    mut first: Vec<Clause>,
    mut second: Vec<Clause>,
    is_and: bool,
) -> Result<Vec<Clause>, AllocError>
    ensures { IfOk result (λ v. v.items ≡ if is_and then first.items ++ second.items else join first.items second.items) }
{
    if is_and {
        first.append(&mut second)?;
        Ok(first)
    } else {
        product(alloc, first, second.as_slice())
    }
}

/// The clause that has the literals of both.
fn beside(alloc: Global, first: &Clause, second: &Clause) -> Result<Clause, AllocError>
    ensures { IfOk result (λ x. x ≡ beside first.now second.now) }
{
    let mut literals = Items::from_slice(alloc, first.literals.as_slice())?;
    literals.append(Items::from_slice(alloc, second.literals.as_slice())?)?;
    Ok(Clause { literals })
}

/// Adds the clause with each of the others.
fn add_products(
    alloc: Global,
    mut clauses: Vec<Clause>,
    first: &Clause,
    others: &[Clause],
) -> Result<Vec<Clause>, AllocError>
    ensures { IfOk result (λ v. v.items ≡ clauses.items ++ map (beside first.now) others.now) }
{
    for other in others {
        clauses.push(beside(alloc, first, other)?)?;
    }
    Ok(clauses)
}

/// Each clause of the first with each of the others. With the last of the others a clause goes on in place, so that a
/// long clause isn't copied for each literal that it gains.
fn product(alloc: Global, firsts: Vec<Clause>, others: &[Clause]) -> Result<Vec<Clause>, AllocError>
    ensures { IfOk result (λ v. v.items ≡ join firsts.items others.now) }
{
    let mut clauses = Vec::new(alloc);
    let Some((last, rest)) = others.split_last() else {
        return Ok(clauses);
    };
    for mut first in firsts {
        clauses = add_products(alloc, clauses, &first, rest)?;
        first
            .literals
            .append(Items::from_slice(alloc, last.literals.as_slice())?)?;
        clauses.push(first)?;
    }
    Ok(clauses)
}
