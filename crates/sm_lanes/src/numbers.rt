//! Kernels over numbers, at the places from `from` up to and without `to`.
ghost use Rattle.std.specs.Prelude.{◌≡◌, ◌≢◌, ℕ, ◌+◌, ◌<◌, ◌≤◌, ◌↔◌, ◌⊎◌, length, ◌+ℤ◌, ◌≤ℤ◌, FitsSigned, IsTrue, IsNone, IfSome};
ghost use Rattle.std.specs.Int.{w64};
ghost use Rattle.sm_lanes.specs.Numbers.{number_at, SumsFit, AddsOver, SameBelow, SameFrom, IsAmong, IsAtMost, IsFirstAbove, IsGreater};

use crate::LANES;
use std::simd::prelude::*;

/// From how many numbers on the greatest is sought by lanes: the last step, over the lanes themselves, takes as long
/// as a few numbers.
const SHORT: usize = 2 * LANES;

/// Adds `amount` to the number at each place from `from` up to and without `to`, and leaves the others. Each sum
/// fits an `i64`.
pub fn add_over(numbers: &mut [i64], from: usize, to: usize, amount: i64)
    requires order { from ≤ to }
    requires room { to ≤ length numbers.old }
    requires fits { SumsFit numbers.old from to amount }
    ensures inside { AddsOver numbers.old numbers.new from to amount }
    ensures below { SameBelow numbers.old numbers.new from }
    ensures above { SameFrom numbers.old numbers.new to }
{
    let mut at = from;
    while to - at >= LANES {
        add_block(numbers, at, amount);
        at += LANES;
    }
    while at < to {
        add_at(numbers, at, amount);
        at += 1;
    }
}

/// The greatest number at the places from `from` up to and without `to`, or `None` where there is no place.
pub fn max_over(numbers: &[i64], from: usize, to: usize) -> Option<i64>
    requires order { from ≤ to }
    requires room { to ≤ length numbers.now }
    ensures reached { IfSome result (IsAmong numbers.now from to) }
    ensures greatest { IfSome result (IsAtMost numbers.now from to) }
    ensures none { IsNone result ↔ (from ≡ to) }
{
    if from == to {
        return None;
    }
    let first = numbers[from];
    if to - from < SHORT {
        return Some(greatest(numbers, from, to, first));
    }
    let mut tops = i64x8::splat(first);
    let mut at = from;
    while to - at >= LANES {
        tops = raise(tops, numbers, at);
        at += LANES;
    }
    let lanes = tops.to_array();
    let top = greatest(&lanes, 1, LANES, lanes[0]);
    let most = greatest(numbers, at, to, top);
    Some(most)
}

/// The least place at or after `from` whose number is above the bound, or `None` where there is none. `from` may
/// be past the end.
pub fn first_above(numbers: &[i64], from: usize, bound: i64) -> Option<usize>
    ensures found { IfSome result (IsFirstAbove numbers.now from bound) }
    ensures none { IsNone result ↔ IsAtMost numbers.now from (length numbers.now) bound }
{
    let len = numbers.len();
    let mut at = from;
    while at < len && len - at > LANES && is_quiet(numbers, at, bound) {
        at += LANES;
    }
    while at < len {
        if numbers[at] > bound {
            return Some(at);
        }
        at += 1;
    }
    None
}

// The numbers of a block as lanes. It reads each number by itself too, since only of a number that is read a proof
// knows that it fits an `i64`.
fn load(numbers: &[i64], at: usize) -> i64x8
    requires { at + LANES ≤ length numbers.now }
    ensures long { length result ≡ LANES }
    ensures lanes { (k : ℕ) → k < LANES → number_at result k ≡ number_at numbers.now (at + k) }
    ensures fits { (k : ℕ) → k < LANES → FitsSigned w64 (number_at numbers.now (at + k)) }
{
    let _first = numbers[at];
    let _second = numbers[at + 1];
    let _third = numbers[at + 2];
    let _fourth = numbers[at + 3];
    let _fifth = numbers[at + 4];
    let _sixth = numbers[at + 5];
    let _seventh = numbers[at + 6];
    let _eighth = numbers[at + 7];
    i64x8::from_slice(&numbers[at..])
}

fn add_block(numbers: &mut [i64], at: usize, amount: i64)
    requires room { at + LANES ≤ length numbers.old }
    requires fits { SumsFit numbers.old at (at + LANES) amount }
    ensures inside { AddsOver numbers.old numbers.new at (at + LANES) amount }
    ensures below { SameBelow numbers.old numbers.new at }
    ensures above { SameFrom numbers.old numbers.new (at + LANES) }
{
    let more = load(numbers, at) + i64x8::splat(amount);
    more.copy_to_slice(&mut numbers[at..]);
}

fn add_at(numbers: &mut [i64], at: usize, amount: i64)
    requires room { at < length numbers.old }
    requires fits { FitsSigned w64 (number_at numbers.old at +ℤ amount) }
    ensures at { number_at numbers.new at ≡ number_at numbers.old at +ℤ amount }
    ensures others { (k : ℕ) → k ≢ at → number_at numbers.new k ≡ number_at numbers.old k }
{
    numbers[at] += amount;
}

// The greater of each lane and the number at its place in the block.
fn raise(tops: i64x8, numbers: &[i64], at: usize) -> i64x8
    requires room { at + LANES ≤ length numbers.now }
    requires long { length tops ≡ LANES }
    requires fits { (k : ℕ) → k < LANES → FitsSigned w64 (number_at tops k) }
    ensures long { length result ≡ LANES }
    ensures fits { (k : ℕ) → k < LANES → FitsSigned w64 (number_at result k) }
    ensures greater { (k : ℕ) → k < LANES
        → IsGreater (number_at tops k) (number_at numbers.now (at + k)) (number_at result k) }
{
    tops.simd_max(load(numbers, at))
}

// The greatest of `start` and the numbers at the places, which are looked at one by one.
fn greatest(numbers: &[i64], from: usize, to: usize, start: i64) -> i64
    requires order { from ≤ to }
    requires room { to ≤ length numbers.now }
    ensures reached { (result ≡ start) ⊎ IsAmong numbers.now from to result }
    ensures start { start ≤ℤ result }
    ensures greatest { IsAtMost numbers.now from to result }
{
    let mut most = start;
    let mut at = from;
    while at < to {
        if numbers[at] > most {
            most = numbers[at];
        }
        at += 1;
    }
    most
}

// Whether no number of the block is above the bound. A no says nothing: the caller then looks at each.
fn is_quiet(numbers: &[i64], at: usize, bound: i64) -> bool
    requires { at + LANES ≤ length numbers.now }
    ensures { IsTrue result → IsAtMost numbers.now at (at + LANES) bound }
{
    !load(numbers, at).simd_gt(i64x8::splat(bound)).any()
}
