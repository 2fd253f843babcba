//! From the least to the greatest of some numbers.
ghost use Rattle.std.specs.Prelude.{◌≡◌, ◌≤◌, ◌∷◌, ◌^◌, int_lt, if◌then◌else◌, length};
ghost use Rattle.sm_meaning.specs.Limits.{least_of, greatest_of};
ghost use Rattle.sm_meaning.specs.Declarations.{span_width, var_width, widths_of};

use crate::counts::size_of;
use sm_flat::Var;
use sm_kinds::VarKind;
use sm_meaning::Range;

/// The lesser of two numbers.
fn lesser(first: i64, second: i64) -> i64
    ensures { result ≡ (if int_lt second first then second else first) }
{
    if second < first { second } else { first }
}

/// The greater of two numbers.
fn greater(first: i64, second: i64) -> i64
    ensures { result ≡ (if int_lt first second then second else first) }
{
    if first < second { second } else { first }
}

/// The least of a number and more.
fn least_of(first: i64, more: &[i64]) -> i64
    ensures { result ≡ least_of first more.now }
{
    let mut least = first;
    for number in more {
        least = lesser(least, *number);
    }
    least
}

/// The greatest of a number and more.
fn greatest_of(first: i64, more: &[i64]) -> i64
    ensures { result ≡ greatest_of first more.now }
{
    let mut greatest = first;
    for number in more {
        greatest = greater(greatest, *number);
    }
    greatest
}

/// How many whole numbers lie from the least to the greatest of a number and more.
fn span_of(first: i64, more: &[i64]) -> u128
    ensures value { result ≡ span_width (first ∷ more.now) }
    ensures bound { result ≤ 2 ^ 64 }
{
    size_of(Range {
        least: least_of(first, more),
        greatest: greatest_of(first, more),
    })
}

/// How many whole numbers lie from the least to the greatest of these.
pub(crate) fn span_width(numbers: &[i64]) -> u128
    ensures value { result ≡ span_width numbers.now }
    ensures bound { result ≤ 2 ^ 64 }
{
    match numbers {
        [] => 0,
        [first, rest @ ..] => span_of(*first, rest),
    }
}

/// The width of a set variable, and 0 for another.
fn var_width(var: &Var) -> u128
    ensures value { result ≡ var_width var.now.kind var.now.values }
    ensures bound { result ≤ 2 ^ 64 }
{
    match var.kind {
        VarKind::Set => span_width(var.values.as_slice()),
        VarKind::Int | VarKind::Real => 0,
    }
}

/// The widths of all set variables together.
pub(crate) fn widths_of(vars: &[Var]) -> u128
    requires { length vars.now ≤ 2 ^ 12 }
    ensures value { result ≡ widths_of vars.now }
    ensures bound { result ≤ 2 ^ 76 }
{
    let mut widths = 0;
    for var in vars {
        widths += var_width(var);
    }
    widths
}
