//! Bitwise operations, word by word.
ghost use Rattle.std.specs.Prelude.{◌≡◌, ℕ, ◌+◌, ◌<◌, ◌≤◌, length, slice_index, bit_and, bit_or};
ghost use Rattle.sm_lanes.specs.Bits.{IsWordwise};

use crate::LANES;
use std::simd::prelude::*;

/// Replaces each word of `into` by its bitwise and with the word of `other` at the same place. Both slices have one
/// length.
pub fn and_into(into: &mut [u64], other: &[u64])
    requires { length into.old ≡ length other.now }
    ensures { IsWordwise bit_and into.old other.now into.new }
{
    let len = into.len();
    let mut at = 0;
    while len - at >= LANES {
        and_block(into, other, at);
        at += LANES;
    }
    while at < len {
        into[at] &= other[at];
        at += 1;
    }
}

/// Replaces each word of `into` by its bitwise or with the word of `other` at the same place. Both slices have one
/// length.
pub fn or_into(into: &mut [u64], other: &[u64])
    requires { length into.old ≡ length other.now }
    ensures { IsWordwise bit_or into.old other.now into.new }
{
    let len = into.len();
    let mut at = 0;
    while len - at >= LANES {
        or_block(into, other, at);
        at += LANES;
    }
    while at < len {
        into[at] |= other[at];
        at += 1;
    }
}

fn and_block(into: &mut [u64], other: &[u64], at: usize)
    requires into { at + LANES ≤ length into.old }
    requires other { at + LANES ≤ length other.now }
    ensures inside { (k : ℕ) → k < LANES
        → slice_index into.new (at + k) ≡ bit_and (slice_index into.old (at + k)) (slice_index other.now (at + k)) }
    ensures below { (k : ℕ) → k < at → slice_index into.new k ≡ slice_index into.old k }
    ensures above { (k : ℕ) → at + LANES ≤ k → slice_index into.new k ≡ slice_index into.old k }
{
    let both = u64x8::from_slice(&into[at..]) & u64x8::from_slice(&other[at..]);
    both.copy_to_slice(&mut into[at..]);
}

fn or_block(into: &mut [u64], other: &[u64], at: usize)
    requires into { at + LANES ≤ length into.old }
    requires other { at + LANES ≤ length other.now }
    ensures inside { (k : ℕ) → k < LANES
        → slice_index into.new (at + k) ≡ bit_or (slice_index into.old (at + k)) (slice_index other.now (at + k)) }
    ensures below { (k : ℕ) → k < at → slice_index into.new k ≡ slice_index into.old k }
    ensures above { (k : ℕ) → at + LANES ≤ k → slice_index into.new k ≡ slice_index into.old k }
{
    let either = u64x8::from_slice(&into[at..]) | u64x8::from_slice(&other[at..]);
    either.copy_to_slice(&mut into[at..]);
}
