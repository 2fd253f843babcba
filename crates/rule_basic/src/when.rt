//! When: a linear row under conditions.
//!
//! Where all conditions are true, the row is due, and narrows as a row by itself does. Where the row can't hold, one condition is
//! false: if all but one are true, that one's complement holds (a reified row; Hooker, Integrated Methods for Optimization, 2012).
ghost use Rattle.std.specs.Prelude.{◌≡◌, ◌≤◌, ◌<◌, ◌^◌, ◌↔◌, ◌⊎◌, IsTrue, All, Any, length, unsigned_abs};
ghost use Rattle.sm_kinds.specs.declared.literal.Literal.{Literal as Stated};
ghost use Rattle.sm_kinds.specs.Literals.{complement};
ghost use Rattle.sm_rows.specs.Halves.{IsGentle, IsOver, FallsShort};
ghost use Rattle.sm_rows.specs.Inferences.{IsTrueIn, AllTrue, IsLastCondition, WhenCuts, WhenCloses, WhenInfers};
ghost use Rattle.sm_rows.specs.Whole.{AreOrdered, IsWholeVar, AreNear, IsFormIn};

use crate::sum::{cuts, falls_short};
use sm_flat::{Form, Literal};
use sm_rows::Half;
use sm_store::Store;

/// Whether the literal is true of all values that its variable may have.
fn is_true(store: &Store, literal: &Literal) -> bool
    requires { literal.now.var < length store.now }
    ensures { IsTrue result ↔ IsTrueIn store.now literal.now }
{
    store.truth(literal) == Some(true)
}

/// Whether all literals are true.
pub(crate) fn all_true(store: &Store, literals: &[Literal]) -> bool
    requires { All (λ (l : Stated). l.var < length store.now) literals.now }
    ensures { IsTrue result ↔ AllTrue store.now literals.now }
{
    literals.iter().all(|l| is_true(store, l))
}

/// Whether the literal is the other's complement.
fn is_complement(literal: &Literal, other: &Literal) -> bool
    requires { unsigned_abs literal.now.bound ≤ 2 ^ 32 }
    ensures { IsTrue result ↔ (complement literal.now ≡ other.now) }
{
    literal.complement() == *other
}

/// Whether a literal's complement is the one that is named, or the literal is true.
fn is_met(store: &Store, literal: &Literal, last: &Literal) -> bool
    requires known { literal.now.var < length store.now }
    requires near { unsigned_abs literal.now.bound ≤ 2 ^ 32 }
    ensures { IsTrue result ↔ ((complement literal.now ≡ last.now) ⊎ IsTrueIn store.now literal.now) }
{
    is_complement(literal, last) || is_true(store, literal)
}

/// Whether the literal is the complement of one of these.
fn is_complement_of_any(literals: &[Literal], last: &Literal) -> bool
    requires { AreNear literals.now }
    ensures { IsTrue result ↔ Any (λ (o : Stated). complement o ≡ last.now) literals.now }
{
    literals.iter().any(|l| is_complement(l, last))
}

/// Whether of each of these the literal is the complement, or it is true.
fn each_is_met(store: &Store, literals: &[Literal], last: &Literal) -> bool
    requires known { All (λ (l : Stated). l.var < length store.now) literals.now }
    requires near { AreNear literals.now }
    ensures { IsTrue result ↔ All (λ (o : Stated). (complement o ≡ last.now) ⊎ IsTrueIn store.now o) literals.now }
{
    literals.iter().all(|l| is_met(store, l, last))
}

/// Whether the literal is the complement of one of these, and each other one is true.
fn is_last_condition(store: &Store, literals: &[Literal], last: &Literal) -> bool
    requires known { All (λ (l : Stated). l.var < length store.now) literals.now }
    requires near { AreNear literals.now }
    ensures { IsTrue result ↔ IsLastCondition store.now last.now literals.now }
{
    is_complement_of_any(literals, last) && each_is_met(store, literals, last)
}

/// Whether the row is due and cuts by the literal, or can't hold, so that the literal does.
pub(crate) fn cuts_when(
    half: &Half<'_>,
    store: &Store,
    literals: &[Literal],
    literal: &Literal,
) -> bool
    requires known { All (λ (l : Stated). l.var < length store.now) literals.now }
    requires near { AreNear literals.now }
    requires gentle { IsGentle half.now }
    requires over { IsOver (length store.now) half.now }
    requires whole { IsWholeVar store.now literal.now }
    requires bounded { unsigned_abs literal.now.bound ≤ 2 ^ 32 }
    requires ordered { AreOrdered store.now }
    ensures { IsTrue result ↔ WhenCuts store.now literals.now literal.now half.now }
{
    all_true(store, literals) && cuts(half, store, literal)
        || falls_short(half, store) && is_last_condition(store, literals, literal)
}

/// Whether all conditions are true, and the half of this number can't hold.
#[tactic(auto, using(sm_rows::proofs::Fitting::gentle_when, sm_rows::proofs::Fitting::over_when, sm_rows::proofs::Fitting::known_when))]
pub(crate) fn when_closes(store: &Store, form: &Form, half: u32) -> bool
    requires { IsFormIn store.now form.now }
    ensures { IsTrue result ↔ WhenCloses store.now half form.now }
{
    let Form::When { literals, row } = form else {
        return false;
    };
    match Half::of(row, half) {
        Some(half) => all_true(store, literals.as_slice()) && falls_short(&half, store),
        None => false,
    }
}

/// Whether the literal is so by the half of this number.
#[tactic(auto, using(sm_rows::proofs::Fitting::gentle_when, sm_rows::proofs::Fitting::over_when, sm_rows::proofs::Fitting::known_when, sm_rows::proofs::Fitting::near_when, sm_rows::proofs::Fitting::ordered_in))]
pub(crate) fn when_infers(store: &Store, form: &Form, half: u32, literal: &Literal) -> bool
    requires form { IsFormIn store.now form.now }
    requires whole { IsWholeVar store.now literal.now }
    requires bounded { unsigned_abs literal.now.bound ≤ 2 ^ 32 }
    ensures { IsTrue result ↔ WhenInfers store.now half literal.now form.now }
{
    let Form::When { literals, row } = form else {
        return false;
    };
    match Half::of(row, half) {
        Some(half) => cuts_when(&half, store, literals.as_slice(), literal),
        None => false,
    }
}
