//! Whether each literal of a formula has a complement.
ghost use Rattle.std.specs.Prelude.{◌≡◌, ◌↔◌, IsTrue};
ghost use Rattle.sm_clausify.specs.Propositions.{meaning, meanings, EachLiteral, EachLiteralOfAll, HasSmallBound};

use crate::formula::Formula;
use crate::nots::behind_nots;
use sm_flat::Literal;

/// Whether the literal's bound is below 2^62 in absolute value.
fn is_small(literal: Literal) -> bool
    ensures { IsTrue result ↔ HasSmallBound literal }
{
    literal.bound.unsigned_abs() < 1 << 62
}

/// Whether each literal's bound is below 2^62 in absolute value, which [`clauses`](crate::clauses) asks for.
#[cycle(bounds)]
pub fn has_small_bounds(formula: &Formula) -> bool
    ensures { IsTrue result ↔ EachLiteral HasSmallBound (meaning formula.now) }
{
    let (inner, _) = behind_nots(formula);
    match inner {
        Formula::Lit(literal) => is_small(*literal),
        Formula::Not(_) => unreachable!(),
        Formula::And(parts) => all_have_small_bounds(parts.as_slice()),
        Formula::Or(parts) => all_have_small_bounds(parts.as_slice()),
        Formula::Implies(first, second) => {
            has_small_bounds(first.get()) && has_small_bounds(second.get())
        }
        Formula::Iff(first, second) => {
            has_small_bounds(first.get()) && has_small_bounds(second.get())
        }
    }
}

#[cycle(bounds)]
fn all_have_small_bounds(parts: &[Formula]) -> bool
    ensures { IsTrue result ↔ EachLiteralOfAll HasSmallBound (meanings parts.now) }
{
    for part in parts {
        if !has_small_bounds(part) {
            return false;
        }
    }
    true
}
