//! Variables.
ghost use Rattle.std.specs.Prelude.{◌≡◌, ◌≤◌, ◌<◌, ◌+◌, ◌^◌, ◌↔◌, IsTrue, All, length};
ghost use Rattle.sm_kinds.specs.Limits.{IsSmall, most_width};
ghost use Rattle.sm_kinds.specs.Vars.{IsRising, width_of, first_of, last_of, IsSetDomain, IsRange, IsDomain, set_width, IsSet, IsDiscrete, is_real_kind, is_real};

use crate::limits::{MOST_WIDTH, are_small};
use sqlite_items::Items;

/// How the values of a variable are given.
#[derive(Clone, Copy, Debug, PartialEq, Eq)]
pub enum VarKind {
    /// A list of whole numbers.
    Set,
    /// The whole numbers from a least to a greatest.
    Int,
    /// All numbers from a least to a greatest.
    Real,
}

/// A variable of a model.
#[derive(Drop)]
pub struct Var {
    /// The name in the model's text, as bytes.
    pub name: Items<u8>,
    pub kind: VarKind,
    /// The declared domain: for `Set` its values, in increasing order, and for `Int` and `Real` the least and the greatest.
    pub values: Items<i64>,
}

/// Whether each number is below the next.
fn is_rising(values: &[i64]) -> bool
    ensures { IsTrue result ↔ IsRising values.now }
{
    for i in 1..values.len() {
        if values[i - 1] >= values[i] {
            return false;
        }
    }
    true
}

/// How many whole numbers lie between the ends, both counted.
fn width_of(values: &[i64]) -> u64
    requires some { 0 < length values.now }
    requires small { All IsSmall values.now }
    ensures value { result ≡ width_of values.now }
    ensures bound { result ≤ 2 ^ 32 + 1 }
{
    let last = values[values.len() - 1];
    let first = values[0];
    (last - first).unsigned_abs() + 1
}

/// Whether the values are a domain of a variable of kind `Set`.
fn is_set_domain(values: &[i64]) -> bool
    ensures { IsTrue result ↔ IsSetDomain values.now }
{
    !values.is_empty() && are_small(values) && is_rising(values) && width_of(values) <= MOST_WIDTH
}

/// Whether the values are the ends of a range.
fn is_range(values: &[i64]) -> bool
    ensures { IsTrue result ↔ IsRange values.now }
{
    values.len() == 2 && values[0] <= values[1] && are_small(values)
}

/// Whether the variable has a domain that its kind may have.
pub fn is_domain(var: &Var) -> bool
    ensures { IsTrue result ↔ IsDomain var.now.kind var.now.values }
{
    match var.kind {
        VarKind::Set => is_set_domain(var.values.as_slice()),
        VarKind::Int | VarKind::Real => is_range(var.values.as_slice()),
    }
}

/// The width of a set variable, and 0 for another.
pub fn set_width(var: &Var) -> u64
    requires { IsDomain var.now.kind var.now.values }
    ensures value { result ≡ set_width var.now.kind var.now.values }
    ensures bound { result ≤ most_width }
{
    match var.kind {
        VarKind::Set => width_of(var.values.as_slice()),
        VarKind::Int | VarKind::Real => 0,
    }
}

/// Whether variable i is one of these, and has a set of values.
pub fn is_set(vars: &[Var], i: u32) -> bool
    ensures { IsTrue result ↔ IsSet vars.now i }
{
    match vars.get(i as usize) {
        Some(var) => var.kind == VarKind::Set,
        None => false,
    }
}

/// Whether variable i is one of these, and has whole values alone.
pub fn is_discrete(vars: &[Var], i: u32) -> bool
    ensures { IsTrue result ↔ IsDiscrete vars.now i }
{
    match vars.get(i as usize) {
        Some(var) => var.kind != VarKind::Real,
        None => false,
    }
}

/// Whether a variable of the kind may have any value between its ends.
pub fn is_real_kind(kind: VarKind) -> bool
    ensures { result ≡ is_real_kind kind }
{
    match kind {
        VarKind::Set | VarKind::Int => false,
        VarKind::Real => true,
    }
}

/// Whether variable i may have any value between its ends.
pub fn is_real(vars: &[Var], i: u32) -> bool
    ensures { result ≡ is_real vars.now i }
{
    match vars.get(i as usize) {
        Some(var) => is_real_kind(var.kind),
        None => false,
    }
}
