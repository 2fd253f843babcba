//! Sum: a half of a linear row.
//!
//! The sum of the terms is to be at least a bound. Where even the sum of the greatest terms is below it, the node has no solution;
//! and a value of a variable with which, beside the greatest other terms, the sum stays below the bound is cut. All such cuts
//! together make the row bounds consistent over the fractions (Brearley, Mitra and Williams, 1975).
ghost use Rattle.std.specs.Prelude.{◌≡◌, ◌<◌, ◌≤◌, ◌^◌, ◌-ℤ◌, ◌≤ℤ◌, ◌<ℤ◌, ◌⊎◌, ◌↔◌, IsTrue, length, pos, slice_index_or, unsigned_abs};
ghost use Rattle.sm_store.specs.Stores.{extent_at};
ghost use Rattle.sm_rows.specs.Halves.{IsGentle, IsOver, IsTooLittle, FallsShort, greatest_sum, greatest_term};
ghost use Rattle.sm_rows.specs.Inferences.{CutsOnly, SumCuts, SumCloses, SumInfers};
ghost use Rattle.sm_rows.specs.Whole.{AreOrdered, IsWholeVar, IsFormIn};

use sm_flat::{Form, Literal};
use sm_rows::Half;
use sm_store::Store;

/// Whether the sum of the greatest terms is below the bound.
pub(crate) fn falls_short(half: &Half<'_>, store: &Store) -> bool
    requires gentle { IsGentle half.now }
    requires over { IsOver (length store.now) half.now }
    ensures { IsTrue result ↔ FallsShort store.now half.now }
{
    half.greatest(store) < half.bound()
}

/// The sum of the greatest terms but that at a place, where all have this sum.
fn others(half: &Half<'_>, store: &Store, greatest: i128, place: usize) -> i128
    requires within { place < length half.now.terms }
    requires gentle { IsGentle half.now }
    requires over { IsOver (length store.now) half.now }
    requires greatest { greatest ≡ greatest_sum store.now half.now.terms }
    requires room { unsigned_abs greatest ≤ 2 ^ 72 }
    ensures value { result ≡ greatest_sum store.now half.now.terms -ℤ greatest_term store.now (slice_index_or half.now.terms place (0, pos 0)) }
    ensures bound { unsigned_abs result ≤ 2 ^ 73 }
{
    greatest - half.greatest_term(store, place)
}

/// Whether a value of the variable at a place is too little, where the greatest terms have this sum.
fn is_too_little(half: &Half<'_>, store: &Store, greatest: i128, place: usize, value: &i64) -> bool
    requires within { place < length half.now.terms }
    requires gentle { IsGentle half.now }
    requires over { IsOver (length store.now) half.now }
    requires greatest { greatest ≡ greatest_sum store.now half.now.terms }
    requires room { unsigned_abs greatest ≤ 2 ^ 72 }
    requires small { unsigned_abs value.now ≤ 2 ^ 31 }
    ensures { IsTrue result ↔ IsTooLittle store.now half.now (slice_index_or half.now.terms place (0, pos 0)) value.now }
{
    let others = others(half, store, greatest, place);
    half.product(place, *value) + others < half.bound()
}

/// Whether the one of two ends with which the term at a place is greater is too little, where the greatest terms have this sum.
fn ends_too_little(
    half: &Half<'_>,
    store: &Store,
    greatest: i128,
    place: usize,
    ends: &(i64, i64),
) -> bool
    requires within { place < length half.now.terms }
    requires gentle { IsGentle half.now }
    requires over { IsOver (length store.now) half.now }
    requires greatest { greatest ≡ greatest_sum store.now half.now.terms }
    requires room { unsigned_abs greatest ≤ 2 ^ 72 }
    requires least { unsigned_abs ends.now.0 ≤ 2 ^ 31 }
    requires most { unsigned_abs ends.now.1 ≤ 2 ^ 31 }
    ensures up { pos 0 ≤ℤ (slice_index_or half.now.terms place (0, pos 0)).1 → IsTrue result ↔ IsTooLittle store.now half.now (slice_index_or half.now.terms place (0, pos 0)) ends.now.1 }
    ensures down { (slice_index_or half.now.terms place (0, pos 0)).1 <ℤ pos 0 → IsTrue result ↔ IsTooLittle store.now half.now (slice_index_or half.now.terms place (0, pos 0)) ends.now.0 }
{
    if half.coefficient(place) >= 0 {
        is_too_little(half, store, greatest, place, &ends.1)
    } else {
        is_too_little(half, store, greatest, place, &ends.0)
    }
}

/// Whether the literal, of the variable at a place, cuts only values that are too little.
fn cuts_at(half: &Half<'_>, store: &Store, greatest: i128, place: usize, literal: &Literal) -> bool
    requires within { place < length half.now.terms }
    requires same { (slice_index_or half.now.terms place (0, pos 0)).0 ≡ literal.now.var }
    requires gentle { IsGentle half.now }
    requires over { IsOver (length store.now) half.now }
    requires greatest { greatest ≡ greatest_sum store.now half.now.terms }
    requires room { unsigned_abs greatest ≤ 2 ^ 72 }
    requires whole { IsWholeVar store.now literal.now }
    requires bounded { unsigned_abs literal.now.bound ≤ 2 ^ 32 }
    requires ordered { AreOrdered store.now }
    ensures { IsTrue result ↔ CutsOnly (IsTooLittle store.now half.now (slice_index_or half.now.terms place (0, pos 0))) store.now literal.now }
{
    // The values that the literal cuts are those of which its complement is true.
    match store.ends_left(&literal.complement()) {
        Some(ends) => ends_too_little(half, store, greatest, place, &ends),
        None => true,
    }
}

/// Whether the literal cuts only values that are too little, by a term of its variable.
pub(crate) fn cuts(half: &Half<'_>, store: &Store, literal: &Literal) -> bool
    requires gentle { IsGentle half.now }
    requires over { IsOver (length store.now) half.now }
    requires whole { IsWholeVar store.now literal.now }
    requires bounded { unsigned_abs literal.now.bound ≤ 2 ^ 32 }
    requires ordered { AreOrdered store.now }
    ensures { IsTrue result ↔ SumCuts store.now literal.now half.now }
{
    let greatest = half.greatest(store);
    for place in 0..half.len() {
        if half.var(place) == literal.var && cuts_at(half, store, greatest, place, literal) {
            return true;
        }
    }
    false
}

/// Whether the half of this number can't hold.
#[tactic(auto, using(sm_rows::proofs::Fitting::gentle_linear, sm_rows::proofs::Fitting::over_linear))]
pub(crate) fn sum_closes(store: &Store, form: &Form, half: u32) -> bool
    requires { IsFormIn store.now form.now }
    ensures { IsTrue result ↔ SumCloses store.now half form.now }
{
    let Form::Linear(row) = form else {
        return false;
    };
    match Half::of(row, half) {
        Some(half) => falls_short(&half, store),
        None => false,
    }
}

/// Whether the literal is so by the half of this number.
#[tactic(auto, using(sm_rows::proofs::Fitting::gentle_linear, sm_rows::proofs::Fitting::over_linear, sm_rows::proofs::Fitting::ordered_in))]
pub(crate) fn sum_infers(store: &Store, form: &Form, half: u32, literal: &Literal) -> bool
    requires form { IsFormIn store.now form.now }
    requires whole { IsWholeVar store.now literal.now }
    requires bounded { unsigned_abs literal.now.bound ≤ 2 ^ 32 }
    ensures { IsTrue result ↔ SumInfers store.now half literal.now form.now }
{
    let Form::Linear(row) = form else {
        return false;
    };
    match Half::of(row, half) {
        Some(half) => cuts(&half, store, literal),
        None => false,
    }
}
