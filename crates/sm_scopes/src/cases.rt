//! Tuples of binders, in lexicographic order.
ghost use Rattle.std.specs.Prelude.{◌≡◌, ◌≤◌, length, take, drop, All, [], MatchOption};
ghost use Rattle.sm_scopes.specs.Wheels.{numbers_behind, behind, IsWheel, Turns, Follows, IsFirst, tuple_of, has_empty, Advances};
ghost use Rattle.sm_meaning.specs.Scopes.{found};

use sm_meaning::Range;
use std::alloc::Global;
use std::marker::Model;

/// A binder that stands at a number of its range.
#[derive(Clone, Copy)]
pub(crate) struct Wheel<'t> {
    pub name: &'t [u8],
    pub range: Range,
    pub number: i64,
}

/// The wheel turned by one, where its range goes on.
#[tactic(auto, using(crate::proofs::Wheels::numbers_step, crate::proofs::Wheels::numbers_none))]
fn next<'t>(wheel: &Wheel<'t>) -> Option<Wheel<'t>>
    requires { IsWheel wheel.now }
    ensures { MatchOption result (numbers_behind wheel.now ≡ []) (Follows wheel.now) }
{
    if wheel.number < wheel.range.greatest {
        return Some(Wheel {
            name: wheel.name,
            range: wheel.range,
            number: wheel.number + 1,
        });
    }
    None
}

/// The wheel at its least number.
#[tactic(auto, using(crate::proofs::Wheels::numbers_step))]
fn first<'t>(wheel: &Wheel<'t>) -> Wheel<'t>
    requires { IsWheel wheel.now }
    ensures { IsFirst wheel.now result }
{
    Wheel {
        name: wheel.name,
        range: wheel.range,
        number: wheel.range.least,
    }
}

/// Turns the first `count` wheels to the next tuple, the last of them fastest; false where there is none.
fn turn(wheels: &mut [Wheel], count: usize) -> bool
    requires count { count ≤ length wheels.old }
    requires wheels { All IsWheel wheels.old }
    ensures turns { Turns result (behind (take count wheels.old) []) (take count wheels.new) }
    ensures wheels { All IsWheel wheels.new }
    ensures rest { drop count wheels.new ≡ drop count wheels.old }
    ensures length { length wheels.new ≡ length wheels.old }
{
    if count == 0 {
        return false;
    }
    let last = count - 1;
    if let Some(wheel) = next(&wheels[last]) {
        wheels[last] = wheel;
        return true;
    }
    if !turn(wheels, last) {
        return false;
    }
    wheels[last] = first(&wheels[last]);
    true
}

/// Whether some range has no number.
fn has_empty(wheels: &[Wheel]) -> bool
    ensures { result ≡ has_empty wheels.now }
{
    wheels.iter().any(|w| w.range.greatest < w.range.least)
}

/// The number of the first wheel of this name.
#[tactic(auto, using(crate::proofs::Wheels::found_first, crate::proofs::Wheels::found_later))]
pub(crate) fn number_in(wheels: &[Wheel], name: &[u8]) -> Option<i64>
    ensures { result ≡ found (tuple_of wheels.now) name.now }
{
    match wheels {
        [] => None,
        [first, ..] if name == first.name => Some(first.number),
        [_, rest @ ..] => number_in(rest, name),
    }
}

/// The tuples of binders in lexicographic order, the first binder slowest, each behind what is bound outside. A contract
/// sees the tuple that is shown, and those to come.
#[derive(Drop)]
pub struct Cases<'t> {
    /// What is bound outside stands in front, in ranges of one number.
    pub(crate) wheels: Vec<Wheel<'t>>,
    /// Whether the first tuple is shown.
    pub(crate) begun: bool,
}

impl<'t> Model for Cases<'t> {
    ghost use Rattle.sm_scopes.specs.Wheels.{Course, tuple_of, to_come_of, AreSet};

    ghost Value = { Course };

    ghost view = { λ c. record { tuple = tuple_of c.wheels.items; to_come = to_come_of c.begun c.wheels.items } };

    ghost invariant = { λ c. AreSet c.begun c.wheels.items };
}

impl<'t> Cases<'t> {
    /// Nothing is bound.
    pub fn outside(alloc: Global) -> Cases<'t>
        ensures { result.tuple ≡ [] }
    {
        Cases {
            wheels: Vec::new(alloc),
            begun: true,
        }
    }

    /// The number that is bound to a name.
    pub fn number_of(&self, name: &[u8]) -> Option<i64>
        ensures { result ≡ found self.now.tuple name.now }
    {
        number_in(self.wheels.as_slice(), name)
    }

    /// Goes on to the next tuple; false where there is none.
    #[tactic(auto, using(crate::proofs::Wheels::no_tuples, crate::proofs::Wheels::first_tuple, crate::proofs::Wheels::at_wheels))]
    pub fn advance(&mut self) -> bool
        ensures { Advances result self.old self.new }
    {
        if self.begun {
            let count = self.wheels.len();
            return turn(self.wheels.as_mut_slice(), count);
        }
        if has_empty(self.wheels.as_slice()) {
            return false;
        }
        self.begun = true;
        true
    }
}
