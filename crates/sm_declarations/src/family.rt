//! Variables, single or as a family over index sets.
ghost use Rattle.std.specs.Prelude.{◌≡◌, ◌+◌, ◌≤◌, ◌<◌, ◌∷◌, [], map, length, OnOk};
ghost use Rattle.sm_kinds.specs.Limits.{most_variables};
ghost use Rattle.sm_syntax.specs.Trees.{kind_of};
ghost use Rattle.sm_meaning.specs.Scopes as meaning;
ghost use Rattle.sm_meaning.specs.Scopes.{count_of};
ghost use Rattle.sm_meaning.specs.Trials.{GoesThrough};
ghost use Rattle.sm_meaning.specs.Tuples.{member_count};
ghost use Rattle.sm_meaning.specs.Expansions.{Expansion};
ghost use Rattle.sm_meaning.specs.Declarations as declared;
ghost use Rattle.sm_meaning.specs.Declarations.{var_tried, with_var, thing_of};
ghost use Rattle.sm_scopes.specs.Things as scopes;
ghost use Rattle.sm_declarations.specs.Making.{IsMakingOf, IsOfSome};
ghost use Rattle.sm_declarations.specs.Numbers.{AreNumbers};
ghost use Rattle.sm_declarations.specs.Growth.{Grows, HasRoom, HasDeclared, family_vars};

use crate::domain::{domain_values, kind_numbers};
use crate::limits::try_limits;
use crate::making::Making;
use crate::names::{expect_new, member_names};
use crate::sets::{ranges_of, try_few, try_sets};
use sm_flat::{Var, VarKind};
use sm_meaning::{ExpandRefusal, Range};
use sm_scopes::Thing;
use sm_syntax::{Kind, Name, Place};
use sqlite_items::Items;
use std::alloc::{AllocError, Global};

/// Tries a declaration of variables. The numbers of its kind, where nothing is refused.
fn try_variable<'t>(
    alloc: Global,
    made: &Making<'t>,
    visited: &mut u64,
    name: &'t Name,
    sets: &'t [Name],
    kind: &'t Kind,
) -> Result<Vec<i64>, ExpandRefusal>
    ensures { (e : Expansion) → IsMakingOf e made.now →
        GoesThrough (var_tried name.now sets.now (kind_of kind.now) e) visited.old visited.new
        (λ zs. AreNumbers made.now.scope (kind_of kind.now) zs.items × HasRoom made.now name.now sets.now) result }
{
    expect_new(&made.scope, name)?;
    try_sets(&made.scope, sets)?;
    try_few(name, sets)?;
    let numbers = kind_numbers(alloc, &made.scope, visited, kind)?;
    let ranges = ranges_of(alloc, &made.scope, sets)?;
    try_limits(
        made.vars.as_slice(),
        ranges.as_slice(),
        kind,
        numbers.as_slice(),
    )?;
    Ok(numbers)
}

/// The kind of a variable.
fn var_kind(kind: &Kind) -> VarKind
    ensures { result ≡ declared.kind_of (kind_of kind.now) }
{
    match kind {
        Kind::Set { .. } => VarKind::Set,
        Kind::Int { .. } => VarKind::Int,
        Kind::Real { .. } => VarKind::Real,
    }
}

/// One more variable.
fn push_member<'t>(made: &mut Making<'t>, place: Place, var: Var) -> Result<(), AllocError>
    requires { count_of made.old.scope < most_variables }
    ensures grows { OnOk result (Grows made.old made.new place (var ∷ [])) }
    ensures names { OnOk result (made.new.scope.names ≡ made.old.scope.names) }
{
    let kind = var.kind;
    made.vars.push(var)?;
    made.places.push(place)?;
    made.scope.declare(kind)
}

/// Variables of these names with one domain.
fn push_members<'t>(
    alloc: Global,
    made: &mut Making<'t>,
    place: Place,
    names: &[Items<u8>],
    kind: VarKind,
    values: &[i64],
) -> Result<(), AllocError>
    requires { count_of made.old.scope + length names.now ≤ most_variables }
    ensures grows { OnOk result (Grows made.old made.new place (map (λ n. record { name = n; kind = kind; values = values.now }) names.now)) }
    ensures names { OnOk result (made.new.scope.names ≡ made.old.scope.names) }
{
    for name in names {
        let var = Var {
            name: Items::from_slice(alloc, name.as_slice())?,
            kind,
            values: Items::from_slice(alloc, values)?,
        };
        push_member(made, place, var)?;
    }
    Ok(())
}

/// The members of a family over these sets, or a single variable where there are none.
fn push_family<'t>(
    alloc: Global,
    made: &mut Making<'t>,
    name: &Name,
    ranges: &[Range],
    kind: &Kind,
    numbers: &[i64],
) -> Result<(), AllocError>
    requires { count_of made.old.scope + member_count ranges.now ≤ most_variables }
    ensures grows { OnOk result ((s : meaning.Scope) → AreNumbers s (kind_of kind.now) numbers.now →
        Grows made.old made.new name.now.place (family_vars name.now ranges.now (kind_of kind.now) s)) }
    ensures count { OnOk result (count_of made.new.scope ≡ count_of made.old.scope + member_count ranges.now) }
    ensures names { OnOk result (made.new.scope.names ≡ made.old.scope.names) }
{
    let names = member_names(alloc, name.text.as_slice(), ranges)?;
    if names.is_empty() {
        return Ok(());
    }
    let values = domain_values(alloc, kind, numbers)?;
    push_members(
        alloc,
        made,
        name.place,
        names.as_slice(),
        var_kind(kind),
        values.as_slice(),
    )
}

/// What a name stands for whose first variable has this number.
fn thing_of<'t>(first: u32, ranges: Vec<Range>) -> Thing<'t>
    ensures { scopes.thing_of result ≡ thing_of first ranges.items }
{
    if ranges.is_empty() {
        return Thing::Variable(first);
    }
    Thing::Family {
        first,
        sets: Items::from_vec(ranges),
    }
}

/// Variables of this name with the numbers of their kind.
fn declare<'t>(
    alloc: Global,
    made: &mut Making<'t>,
    name: &'t Name,
    sets: &[Name],
    kind: &Kind,
    numbers: &[i64],
) -> Result<(), AllocError>
    requires { HasRoom made.old name.now sets.now }
    ensures { OnOk result ((s : meaning.Scope) → AreNumbers s (kind_of kind.now) numbers.now → HasDeclared made.old made.new name.now sets.now (kind_of kind.now) s) }
{
    let first = made.vars.len() as u32;
    let ranges = ranges_of(alloc, &made.scope, sets)?;
    push_family(alloc, made, name, ranges.as_slice(), kind, numbers)?;
    made.scope
        .insert(name.text.as_slice(), thing_of(first, ranges))
}

/// One more variable, or one for each tuple of members of the index sets, of this kind.
///
/// # Errors
///
/// `Doubled` for a name that is known, `Unknown` or `Shape` for a name of no index set, `Shape` for more than three sets,
/// what is refused of the kind's numbers, `Value` where no value lies in the domain, and then `Limit` of bounds, of the
/// count of variables, of widths and of real variables.
pub fn variable<'t>(
    alloc: Global,
    made: &mut Making<'t>,
    visited: &mut u64,
    name: &'t Name,
    sets: &'t [Name],
    kind: &'t Kind,
) -> Result<(), ExpandRefusal>
    requires { IsOfSome made.old }
    ensures { (e : Expansion) → IsMakingOf e made.old →
        GoesThrough (var_tried name.now sets.now (kind_of kind.now) e) visited.old visited.new
        (λ _. IsMakingOf (with_var name.now sets.now (kind_of kind.now) e) made.new) result }
{
    let numbers = try_variable(alloc, made, visited, name, sets, kind)?;
    declare(alloc, made, name, sets, kind, numbers.as_slice())?;
    Ok(())
}
