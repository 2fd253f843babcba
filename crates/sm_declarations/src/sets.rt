//! The index sets of a family.
ghost use Rattle.std.specs.Prelude.{◌≡◌, ℕ, IfOk, [], length, nat_lt};
ghost use Rattle.sm_meaning.specs.declared.refusal.Wrong.TheVariants.{Shape};
ghost use Rattle.sm_meaning.specs.Refusals.{wrong_if};
ghost use Rattle.sm_meaning.specs.Scopes.{found};
ghost use Rattle.sm_meaning.specs.Trials.{GoesThrough, tried, each_tried};
ghost use Rattle.sm_meaning.specs.ExpressionTrials.{set_tried};
ghost use Rattle.sm_meaning.specs.Declarations.{set_range, ranges_of};
ghost use Rattle.sm_drafts.specs.Drafts.{Passes};

use sm_meaning::{ExpandRefusal, Range, Wrong};
use sm_scopes::{Scope, Thing};
use sm_syntax::Name;
use std::alloc::{AllocError, Global};

/// Tries that a name is that of an index set.
fn try_set(scope: &Scope, name: &Name) -> Result<(), ExpandRefusal>
    ensures { Passes (set_tried scope.now [] name.now) result }
{
    match scope.look(name.text.as_slice()) {
        Some(Thing::IndexSet(_)) => Ok(()),
        Some(_) => Err(ExpandRefusal::at(name.place, Wrong::Shape)),
        None => Err(ExpandRefusal::at(name.place, Wrong::Unknown)),
    }
}

/// Tries that these are names of index sets.
pub(crate) fn try_sets(scope: &Scope, sets: &[Name]) -> Result<(), ExpandRefusal>
    ensures { Passes (each_tried (set_tried scope.now []) sets.now) result }
{
    for set in sets {
        try_set(scope, set)?;
    }
    Ok(())
}

/// Tries that a family has no more than three index sets.
pub(crate) fn try_few(name: &Name, sets: &[Name]) -> Result<(), ExpandRefusal>
    ensures { Passes (tried (wrong_if (nat_lt 3 (length sets.now)) name.now.place Shape)) result }
{
    if sets.len() > 3 {
        return Err(ExpandRefusal::at(name.place, Wrong::Shape));
    }
    Ok(())
}

/// The range of an index set; another thing has one number.
fn set_range(scope: &Scope, name: &Name) -> Range
    ensures { result ≡ set_range (found scope.now.names name.now.text) }
{
    match scope.look(name.text.as_slice()) {
        Some(Thing::IndexSet(range)) => *range,
        _ => Range {
            least: 0,
            greatest: 0,
        },
    }
}

/// The ranges of index sets.
pub(crate) fn ranges_of(
    alloc: Global,
    scope: &Scope,
    sets: &[Name],
) -> Result<Vec<Range>, AllocError>
    ensures { IfOk result (λ rs. rs.items ≡ ranges_of scope.now.names sets.now) }
{
    let mut ranges = Vec::new(alloc);
    for set in sets {
        ranges.push(set_range(scope, set))?;
    }
    Ok(ranges)
}
