//! Exact fractions of 128-bit whole numbers.
//!
//! A [`Frac`] is a rational number in lowest terms whose numerator and denominator are at most 2^127 - 1 in absolute value.
//! Each operation gives the exact number, or says that it passed this range, with its operands. None takes memory.
#![tactic(auto)]

mod compare;
mod divisor;
mod fraction;
mod multiple;
mod operation;
mod range;
mod rounding;

pub use compare::compare_ratios;
pub use divisor::gcd;
pub use fraction::Frac;
pub use multiple::lcm_52;
pub use operation::{Op, RangePassed};
