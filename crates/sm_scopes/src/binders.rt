//! Binders with their index sets.
ghost use Rattle.std.specs.Prelude.{◌≡◌, ◌++◌, ◌∷◌, [], ℕ, List, map, All, IfOk, IfErr};
ghost use Rattle.sm_syntax.specs.declared.tree.Bind.{Bind as BindNode};
ghost use Rattle.sm_meaning.specs.declared.refusal.ExpandRefusal.TheVariants.{OutOfMemory};
ghost use Rattle.sm_meaning.specs.Scopes.{found};
ghost use Rattle.sm_meaning.specs.Trials.{GoesThrough};
ghost use Rattle.sm_meaning.specs.Tuples.{numbers_of, set_numbers, span_of, tuples};
ghost use Rattle.sm_meaning.specs.ExpressionTrials.{new_tried, set_tried, binds_tried};
ghost use Rattle.sm_scopes.specs.Wheels.{tuple_of, IsAtFirst, IsFixed};
ghost use Rattle.sm_scopes.specs.Binding.{Binds};

use crate::cases::{Cases, Wheel, number_in};
use crate::scope::{Scope, Thing};
use sm_meaning::{ExpandRefusal, Range, Wrong};
use sm_syntax::{Bind, Name};
use std::alloc::Global;

/// Tries that a name is new.
fn expect_new(scope: &Scope, wheels: &[Wheel], name: &Name) -> Result<(), ExpandRefusal>
    ensures { (count : ℕ) → GoesThrough (new_tried scope.now (tuple_of wheels.now) name.now) count count (λ _. Unit {0}) result }
{
    let text = name.text.as_slice();
    if number_in(wheels, text).is_some() || scope.look(text).is_some() {
        return Err(ExpandRefusal::at(name.place, Wrong::Doubled));
    }
    Ok(())
}

/// The index set of a name.
fn index_set(scope: &Scope, wheels: &[Wheel], name: &Name) -> Result<Range, ExpandRefusal>
    ensures { (count : ℕ) → GoesThrough (set_tried scope.now (tuple_of wheels.now) name.now) count count (λ r. set_numbers (found scope.now.names name.now.text) ≡ numbers_of r) result }
{
    let text = name.text.as_slice();
    if number_in(wheels, text).is_some() {
        return Err(ExpandRefusal::at(name.place, Wrong::Shape));
    }
    match scope.look(text) {
        Some(Thing::IndexSet(range)) => Ok(*range),
        Some(_) => Err(ExpandRefusal::at(name.place, Wrong::Shape)),
        None => Err(ExpandRefusal::at(name.place, Wrong::Unknown)),
    }
}

/// A binder at the least number of its range.
fn at_first<'t>(binder: &'t Bind, range: Range) -> Wheel<'t>
    ensures name { result.name.now ≡ binder.now.name.text }
    ensures range { result.range ≡ range }
    ensures first { IsAtFirst result }
{
    Wheel {
        name: binder.name.text.as_slice(),
        range,
        number: range.least,
    }
}

/// One more binder.
fn bind<'t>(
    scope: &Scope,
    wheels: &[Wheel<'t>],
    binder: &'t Bind,
) -> Result<Wheel<'t>, ExpandRefusal>
    ensures { Binds binder.now scope.now (tuple_of wheels.now) result }
{
    expect_new(scope, wheels, &binder.name)?;
    let range = index_set(scope, wheels, &binder.set)?;
    Ok(at_first(binder, range))
}

/// What is bound outside, in ranges of one number.
fn fixed<'t>(alloc: Global, outside: &[Wheel<'t>]) -> Result<Vec<Wheel<'t>>, ExpandRefusal>
    ensures tuple { IfOk result (λ ws. tuple_of ws.items ≡ tuple_of outside.now) }
    ensures fixed { IfOk result (λ ws. All IsFixed ws.items) }
    ensures memory { IfErr result (λ e. e ≡ OutOfMemory) }
{
    let mut wheels = Vec::new(alloc);
    for wheel in outside {
        wheels.push(Wheel {
            name: wheel.name,
            range: Range {
                least: wheel.number,
                greatest: wheel.number,
            },
            number: wheel.number,
        })?;
    }
    Ok(wheels)
}

impl<'t> Cases<'t> {
    /// The tuples of binders behind what is bound outside.
    ///
    /// # Errors
    ///
    /// `Doubled` for a name that is known, and then `Unknown` or `Shape` for a name of no index set, binder by binder.
    pub fn within(
        alloc: Global,
        scope: &Scope,
        outside: &Cases<'t>,
        first: &'t Bind,
        more: &'t [Bind],
    ) -> Result<Cases<'t>, ExpandRefusal>
        ensures { (count : ℕ) → GoesThrough (binds_tried (first.now ∷ more.now) scope.now outside.now.tuple) count count
            (λ c. c.to_come ≡ tuples (map (span_of scope.now.names) (first.now ∷ more.now)) outside.now.tuple) result }
    {
        let mut wheels = fixed(alloc, outside.wheels.as_slice())?;
        wheels.push(bind(scope, wheels.as_slice(), first)?)?;
        for binder in more {
            wheels.push(bind(scope, wheels.as_slice(), binder)?)?;
        }
        Ok(Cases {
            wheels,
            begun: false,
        })
    }
}
