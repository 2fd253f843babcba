//! Names: whether they are new, those of index sets, and those of the members of families.
ghost use Rattle.std.specs.Prelude.{◌≡◌, ◌++◌, ◌∷◌, [], ℕ, map, OnOk, IfOk, false, is_some};
ghost use Rattle.sm_base.specs.Whole.{whole_text};
ghost use Rattle.sm_meaning.specs.Scopes.{found};
ghost use Rattle.sm_meaning.specs.Trials.{GoesThrough};
ghost use Rattle.sm_meaning.specs.ExpressionTrials.{new_tried};
ghost use Rattle.sm_meaning.specs.Declarations.{joined, member_name, index_tuples};

use crate::counts::member_count;
use crate::domain::range_values;
use sm_base::push_whole;
use sm_meaning::{ExpandRefusal, Range, Wrong};
use sm_scopes::Scope;
use sm_syntax::Name;
use sqlite_items::Items;
use std::alloc::{AllocError, Global};

/// Tries that a name is new.
pub(crate) fn expect_new(scope: &Scope, name: &Name) -> Result<(), ExpandRefusal>
    ensures { (count : ℕ) → GoesThrough (new_tried scope.now [] name.now) count count (λ _. is_some (found scope.now.names name.now.text) ≡ false) result }
{
    if scope.look(name.text.as_slice()).is_some() {
        return Err(ExpandRefusal::at(name.place, Wrong::Doubled));
    }
    Ok(())
}

/// Appends a number.
fn push_number(into: &mut Vec<u8>, number: i64) -> Result<(), AllocError>
    ensures { OnOk result (into.new.items ≡ into.old.items ++ whole_text number) }
{
    match push_whole(into, i128::from(number)) {
        Ok(()) => Ok(()),
        Err(_) => Err(AllocError),
    }
}

/// Appends numbers with commas between them.
fn push_joined(into: &mut Vec<u8>, numbers: &[i64]) -> Result<(), AllocError>
    ensures { OnOk result (into.new.items ≡ into.old.items ++ joined (map whole_text numbers.now)) }
{
    match numbers {
        [] => Ok(()),
        [last] => push_number(into, *last),
        [first, rest @ ..] => {
            push_number(into, *first)?;
            into.extend_from_slice(b",")?;
            push_joined(into, rest)
        }
    }
}

/// Appends the indices of a member in brackets; nothing where there are none.
fn push_indices(into: &mut Vec<u8>, indices: &[i64]) -> Result<(), AllocError>
    ensures { OnOk result (into.new.items ≡ member_name into.old.items indices.now) }
{
    match indices {
        [] => Ok(()),
        [_, ..] => {
            into.extend_from_slice(b"[")?;
            push_joined(into, indices)?;
            into.extend_from_slice(b"]")
        }
    }
}

/// The name of a member.
fn member_name(alloc: Global, name: &[u8], indices: &[i64]) -> Result<Items<u8>, AllocError>
    ensures { IfOk result (λ t. t ≡ member_name name.now indices.now) }
{
    let mut text = Vec::from_slice(alloc, name)?;
    push_indices(&mut text, indices)?;
    Ok(Items::from_vec(text))
}

/// Indices and one more.
fn with_index(alloc: Global, indices: &[i64], index: &i64) -> Result<Vec<i64>, AllocError>
    ensures { IfOk result (λ zs. zs.items ≡ indices.now ++ index.now ∷ []) }
{
    let mut all = Vec::from_slice(alloc, indices)?;
    all.push(*index)?;
    Ok(all)
}

/// Appends the names of all members whose indices begin with these.
fn push_names(
    alloc: Global,
    names: &mut Vec<Items<u8>>,
    name: &[u8],
    indices: &[i64],
    ranges: &[Range],
) -> Result<(), AllocError>
    ensures { OnOk result (names.new.items ≡ names.old.items ++ map (λ zs. member_name name.now (indices.now ++ zs)) (index_tuples ranges.now)) }
{
    match ranges {
        [] => {
            names.push(member_name(alloc, name, indices)?)?;
            Ok(())
        }
        [first, rest @ ..] => {
            let numbers = range_values(alloc, *first)?;
            for number in numbers.as_slice() {
                let longer = with_index(alloc, indices, number)?;
                push_names(alloc, names, name, longer.as_slice(), rest)?;
            }
            Ok(())
        }
    }
}

/// The names of the members of a family over these sets, in the order of their indices.
pub(crate) fn member_names(
    alloc: Global,
    name: &[u8],
    ranges: &[Range],
) -> Result<Vec<Items<u8>>, AllocError>
    ensures { IfOk result (λ names. names.items ≡ map (member_name name.now) (index_tuples ranges.now)) }
{
    let mut names = Vec::new(alloc);
    if member_count(ranges) == 0 {
        return Ok(names);
    }
    push_names(alloc, &mut names, name, &[], ranges)?;
    Ok(names)
}
