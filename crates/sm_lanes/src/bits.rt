//! Words as one row of bits: bit `b` of word `w` is place `64 * w + b`.
ghost use Rattle.std.specs.Prelude.{◌≡◌, ℕ, ◌+◌, ◌*◌, ◌^◌, ◌<◌, ◌≤◌, ◌↔◌, length, slice_index, sum_by, count_ones, bit_and, IsTrue, IsNone, IfSome};
ghost use Rattle.std.specs.Int.{bit_not, w64};
ghost use Rattle.sm_lanes.specs.Bits.{ones_of, IsSubset, HasNoOne, IsFirstOne, IsLastOne};

use crate::LANES;
use std::simd::prelude::*;

const WORD_BITS: usize = 64;

/// How many places are 1. All places together are fewer than 2^64.
pub fn count_ones(words: &[u64]) -> u64
    requires { 64 * length words.now < 2 ^ 64 }
    ensures { result ≡ ones_of words.now }
{
    let len = words.len();
    let mut total = 0;
    let mut at = 0;
    while len - at >= LANES {
        let block = u64x8::from_slice(&words[at..]);
        total += ones(&block.to_array());
        at += LANES;
    }
    total + ones(&words[at..])
}

/// Whether no place is 1 in `inner` and 0 in `outer`, which have one length.
pub fn is_subset(inner: &[u64], outer: &[u64]) -> bool
    requires { length inner.now ≡ length outer.now }
    ensures { IsTrue result ↔ IsSubset inner.now outer.now }
{
    let len = inner.len();
    let mut at = 0;
    while len - at >= LANES && is_subset_block(inner, outer, at) {
        at += LANES;
    }
    while at < len {
        if inner[at] & !outer[at] != 0 {
            return false;
        }
        at += 1;
    }
    true
}

/// The least place that is 1, or `None` where each is 0. All places together are fewer than 2^64.
pub fn first_one(words: &[u64]) -> Option<usize>
    requires { 64 * length words.now < 2 ^ 64 }
    ensures found { IfSome result (IsFirstOne words.now) }
    ensures none { IsNone result ↔ HasNoOne words.now }
{
    let len = words.len();
    let mut at = 0;
    while len - at > LANES && is_zero_block(words, at) {
        at += LANES;
    }
    while at < len {
        let word = words[at];
        if word != 0 {
            return Some(WORD_BITS * at + word.trailing_zeros() as usize);
        }
        at += 1;
    }
    None
}

/// The greatest place that is 1, or `None` where each is 0. All places together are fewer than 2^64.
pub fn last_one(words: &[u64]) -> Option<usize>
    requires { 64 * length words.now < 2 ^ 64 }
    ensures found { IfSome result (IsLastOne words.now) }
    ensures none { IsNone result ↔ HasNoOne words.now }
{
    let mut end = words.len();
    while end > LANES && is_zero_block(words, end - LANES) {
        end -= LANES;
    }
    while end > 0 {
        end -= 1;
        let word = words[end];
        if word != 0 {
            return Some(WORD_BITS * end + (WORD_BITS - 1 - word.leading_zeros() as usize));
        }
    }
    None
}

// The ones of at most a block's words. It goes by the processor's count of one word, which is faster than a count by
// vectors where these have no such instruction.
fn ones(words: &[u64]) -> u64
    requires { length words.now ≤ LANES }
    ensures { result ≡ sum_by count_ones words.now }
{
    words.iter().map(|word| u64::from(word.count_ones())).sum()
}

// Whether no word of the block has a 1 where the other has a 0. A no says nothing: the caller then looks at each
// word.
fn is_subset_block(inner: &[u64], outer: &[u64], at: usize) -> bool
    requires inner { at + LANES ≤ length inner.now }
    requires outer { at + LANES ≤ length outer.now }
    ensures { IsTrue result → (k : ℕ) → k < LANES
        → bit_and (slice_index inner.now (at + k)) (bit_not w64 (slice_index outer.now (at + k))) ≡ 0 }
{
    let missing = u64x8::from_slice(&inner[at..]) & !u64x8::from_slice(&outer[at..]);
    missing.reduce_or() == 0
}

// Whether each word of the block is 0. A no says nothing: the caller then looks at each.
fn is_zero_block(words: &[u64], at: usize) -> bool
    requires { at + LANES ≤ length words.now }
    ensures { IsTrue result → (k : ℕ) → k < LANES → slice_index words.now (at + k) ≡ 0 }
{
    u64x8::from_slice(&words[at..]).reduce_or() == 0
}
