//! Index sets.
ghost use Rattle.std.specs.Prelude.{◌≡◌, []};
ghost use Rattle.sm_data.specs.declared.refusal.Counted.TheVariants as counted;
ghost use Rattle.sm_syntax.specs.Expressions.{expression_of};
ghost use Rattle.sm_meaning.specs.Trials.{GoesThrough, ◌▸◌};
ghost use Rattle.sm_meaning.specs.Tuples.{size_of};
ghost use Rattle.sm_meaning.specs.Cases.{number_tried};
ghost use Rattle.sm_meaning.specs.Limits.{count_tried};
ghost use Rattle.sm_meaning.specs.Expansions.{Expansion};
ghost use Rattle.sm_meaning.specs.Declarations.{most_members_of_set, range_of, index_tried, with_index};
ghost use Rattle.sm_declarations.specs.Making.{IsMakingOf};

use crate::counts::{size_of, try_large_count};
use crate::domain::plain_number;
use crate::making::Making;
use crate::names::expect_new;
use sm_data::Counted;
use sm_meaning::{ExpandRefusal, Range};
use sm_scopes::{Scope, Thing};
use sm_syntax::{Expr, Name};
use std::alloc::Global;

/// Members of an index set.
const MOST_MEMBERS_OF_SET: usize = 65536;

/// The range from a least to a greatest number, where it has not too many numbers.
fn range_of<'t>(
    alloc: Global,
    scope: &Scope,
    visited: &mut u64,
    least: &'t Expr,
    greatest: &'t Expr,
) -> Result<Range, ExpandRefusal>
    ensures { let x = expression_of least.now in let y = expression_of greatest.now in
        GoesThrough (number_tried scope.now x [] ▸ number_tried scope.now y [] ▸ count_tried counted.Size most_members_of_set (size_of (range_of scope.now x y))) visited.old visited.new
        (λ r. r ≡ range_of scope.now x y) result }
{
    let first = plain_number(alloc, scope, visited, least)?;
    let last = plain_number(alloc, scope, visited, greatest)?;
    let range = Range {
        least: first,
        greatest: last,
    };
    try_large_count(Counted::Size, MOST_MEMBERS_OF_SET, size_of(range))?;
    Ok(range)
}

/// One more index set, from a least to a greatest number.
///
/// # Errors
///
/// `Doubled` for a name that is known, what is refused of the two ends, and `Limit` where the set has too many members.
pub fn index<'t>(
    alloc: Global,
    made: &mut Making<'t>,
    visited: &mut u64,
    name: &'t Name,
    least: &'t Expr,
    greatest: &'t Expr,
) -> Result<(), ExpandRefusal>
    ensures { (e : Expansion) → IsMakingOf e made.old →
        GoesThrough (index_tried name.now (expression_of least.now) (expression_of greatest.now) e) visited.old visited.new
        (λ _. IsMakingOf (with_index name.now (expression_of least.now) (expression_of greatest.now) e) made.new) result }
{
    expect_new(&made.scope, name)?;
    let range = range_of(alloc, &made.scope, visited, least, greatest)?;
    made.scope
        .insert(name.text.as_slice(), Thing::IndexSet(range))?;
    Ok(())
}
