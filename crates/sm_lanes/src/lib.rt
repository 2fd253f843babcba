//! Kernels over slices of words and of numbers. They go by vectors of eight lanes, and word by word over what is left.
//! Words are one row of bits, in which bit `b` of word `w` is place `64 * w + b`. No kernel allocates.
#![tactic(auto)]

mod bits;
mod bitwise;
mod numbers;

pub use bits::{count_ones, first_one, is_subset, last_one};
pub use bitwise::{and_into, or_into};
pub use numbers::{add_over, first_above, max_over};

/// How many words or numbers one vector holds.
const LANES: usize = 8;
