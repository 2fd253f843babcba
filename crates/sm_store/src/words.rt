//! Words of a set of values: one bit a value, the first for the base.
ghost use Rattle.std.specs.Prelude.{◌≡◌, ℕ, ℤ, ◌+◌, ◌*◌, ◌<◌, ◌≤◌, ◌^◌, ◌↔◌, ◌+ℤ◌, ◌-ℤ◌, length, pos, All, unsigned_abs, ◌≤ℤ◌, ◌<ℤ◌, IsTrue, if◌then◌else◌};
ghost use Rattle.std.specs.Int.{bit_at};
ghost use Rattle.sm_kinds.specs.Literals.{passes, passes_test};
ghost use Rattle.sm_kinds.specs.Vars.{IsOneOf};
ghost use Rattle.sm_kinds.specs.declared.literal.Test.{Test as Tested};
ghost use Rattle.sm_kinds.specs.declared.var.VarKind.TheVariants.{Set as Listed};
ghost use Rattle.sm_store.specs.Blocks.{values_of, is_one, IsSummary, KeepsPassing, leaves_some, takes_some};

use crate::summary::{NOTHING, Summary};
use sm_flat::{Literal, Test};
use sm_lanes::{count_ones, first_one, last_one};

/// How many places a word has.
pub(crate) const PLACES: usize = 64;

/// How many words a set has at most, since its numbers are at most 4,096 wide.
pub(crate) const MOST_WORDS: usize = 65;

/// A number beyond all values of words.
const FAR: i64 = 1 << 34;

/// A bound by which each test of a value of words is as by this one, and from which a base may be taken.
fn near(bound: &i64) -> i64
    ensures small { unsigned_abs result ≤ 2 ^ 34 }
    ensures same { (t : Tested) (v : ℤ) → unsigned_abs v < 2 ^ 34 → passes_test t result v ≡ passes_test t bound.now v }
{
    if *bound > FAR {
        FAR
    } else if *bound < -FAR {
        -FAR
    } else {
        *bound
    }
}

/// The places of a word whose numbers pass, where the bound is the number of this place.
fn mask_at(test: Test, place: u32) -> u64
    requires { place < 64 }
    ensures { (i : ℕ) → i < 64 → bit_at result i ≡ (if passes_test test (pos place) (pos i) then 1 else 0) }
{
    match test {
        Test::AtMost => u64::MAX >> (63 - place),
        Test::AtLeast => u64::MAX << place,
        Test::Equal => 1 << place,
        Test::Unequal => !(1 << place),
    }
}

/// The places of a word whose numbers pass, where the bound is before its places.
fn mask_after(test: Test) -> u64
    ensures { (b : ℤ) (i : ℕ) → b <ℤ pos 0 → i < 64 → bit_at result i ≡ (if passes_test test b (pos i) then 1 else 0) }
{
    match test {
        Test::AtMost | Test::Equal => 0,
        Test::AtLeast => u64::MAX,
        Test::Unequal => u64::MAX,
    }
}

/// The places of a word whose numbers pass, where the bound is past its places.
fn mask_before(test: Test) -> u64
    ensures { (b : ℤ) (i : ℕ) → pos 64 ≤ℤ b → i < 64 → bit_at result i ≡ (if passes_test test b (pos i) then 1 else 0) }
{
    match test {
        Test::AtLeast | Test::Equal => 0,
        Test::AtMost => u64::MAX,
        Test::Unequal => u64::MAX,
    }
}

/// The places of a word whose numbers pass.
fn mask(test: Test, bound: &i64) -> u64
    ensures { (i : ℕ) → i < 64 → bit_at result i ≡ (if passes_test test bound.now (pos i) then 1 else 0) }
{
    if *bound < 0 {
        mask_after(test)
    } else if *bound < 64 {
        mask_at(test, *bound as u32)
    } else {
        mask_before(test)
    }
}

/// The bound by places of a word.
fn bound_in(bound: &i64, base: &i64, word: usize) -> i64
    requires bound { unsigned_abs bound.now ≤ 2 ^ 34 }
    requires near { unsigned_abs base.now ≤ 2 ^ 32 }
    requires few { word < 65 }
    ensures { result ≡ bound.now -ℤ base.now -ℤ pos (64 * word) }
{
    *bound - *base - (PLACES * word) as i64
}

/// The places of a word whose values the literal is true of.
fn word_mask(literal: &Literal, base: &i64, word: usize) -> u64
    requires near { unsigned_abs base.now ≤ 2 ^ 32 }
    requires few { word < 65 }
    ensures { (i : ℕ) → i < 64 → bit_at result i ≡ (if passes literal.now (base.now +ℤ pos (64 * word + i)) then 1 else 0) }
{
    let bound = near(&literal.bound);
    let place = bound_in(&bound, base, word);
    mask(literal.test, &place)
}

/// Keeps the values of which the literal is true.
pub(crate) fn keep(words: &mut [u64], base: &i64, literal: &Literal)
    requires near { unsigned_abs base.now ≤ 2 ^ 32 }
    requires few { length words.old ≤ 65 }
    ensures { KeepsPassing (passes literal.now) base.now words.old words.new }
{
    let mut at = 0;
    while at < words.len() {
        words[at] &= word_mask(literal, base, at);
        at += 1;
    }
}

/// The value of a place.
fn value_at(base: &i64, place: usize) -> i64
    requires near { unsigned_abs base.now ≤ 2 ^ 32 }
    requires few { place < 2 ^ 32 }
    ensures { result ≡ base.now +ℤ pos place }
{
    *base + place as i64
}

/// The ends of the values, and how many there are.
#[tactic(auto, using(crate::proofs::WordPlaces::ones_summary, crate::proofs::WordPlaces::no_summary))]
pub(crate) fn summary_of(words: &[u64], base: &i64) -> Summary
    requires near { unsigned_abs base.now ≤ 2 ^ 32 }
    requires few { length words.now ≤ 65 }
    ensures { IsSummary Listed (values_of base.now words.now) result }
{
    let Some(first) = first_one(words) else {
        return NOTHING;
    };
    let Some(last) = last_one(words) else {
        return NOTHING;
    };
    Summary {
        least: value_at(base, first),
        greatest: value_at(base, last),
        size: count_ones(words),
    }
}

/// Whether a place is 1.
fn is_one(words: &[u64], place: usize) -> bool
    ensures { result ≡ is_one words.now place }
{
    match words.get(place / PLACES) {
        Some(word) => *word >> (place % PLACES) & 1 == 1,
        None => false,
    }
}

/// The place of a value, which isn't below the base.
pub(crate) fn place_of(value: &i64, base: &i64) -> usize
    requires { base.now ≤ℤ value.now }
    ensures { value.now ≡ base.now +ℤ pos result }
{
    value.abs_diff(*base) as usize
}

/// Whether the value is one of the words'.
#[tactic(auto, using(crate::proofs::WordPlaces::none_below))]
pub(crate) fn has(words: &[u64], base: &i64, value: &i64) -> bool
    ensures { IsTrue result ↔ IsOneOf value.now (pos 1) (values_of base.now words.now) }
{
    if *value < *base {
        return false;
    }
    is_one(words, place_of(value, base))
}

/// Whether the literal is true of a value of a set, by its ends and by whether the literal's bound is a value.
pub(crate) fn leaves_some(literal: &Literal, summary: &Summary, has: bool) -> bool
    ensures { result ≡ leaves_some literal.now.test literal.now.bound summary.now has }
{
    let (least, greatest) = (summary.least, summary.greatest);
    match literal.test {
        Test::AtMost => least <= greatest && least <= literal.bound,
        Test::AtLeast => least <= greatest && literal.bound <= greatest,
        Test::Equal => has,
        Test::Unequal => least < greatest || least == greatest && least != literal.bound,
    }
}

/// Whether the literal is false of a value of a set, by its ends and by whether the literal's bound is a value.
pub(crate) fn takes_some(literal: &Literal, summary: &Summary, has: bool) -> bool
    ensures { result ≡ takes_some literal.now.test literal.now.bound summary.now has }
{
    let (least, greatest) = (summary.least, summary.greatest);
    match literal.test {
        Test::AtMost => least <= greatest && literal.bound < greatest,
        Test::AtLeast => least <= greatest && least < literal.bound,
        Test::Equal => least < greatest || least == greatest && least != literal.bound,
        Test::Unequal => has,
    }
}
