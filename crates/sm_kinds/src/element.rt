//! Element: x is the number of an entry, and z equals that entry.
ghost use Rattle.std.specs.Prelude.{◌≡◌, ◌≤◌, ◌+◌, ◌^◌, ◌↔◌, List, IsTrue, IsSome, IfSome, true, length, unsigned_abs};
ghost use Rattle.sm_kinds.specs.Element.{IsEntry, IsElement, element_size, EachEntryVar, EachElementVar, entry_value, SatElement};

use crate::limits::{MOST_MEMBERS, is_small, left_after};
use crate::values::{Values, VarTest, place, scaled};
use crate::var::{Var, is_discrete, is_set};

/// An entry of an element's table.
#[derive(Clone, Copy, Debug, PartialEq, Eq)]
pub enum Entry {
    /// A whole number.
    Number(i64),
    /// The value of the variable of this number.
    Variable(u32),
}

fn is_entry(vars: &[Var], entry: &Entry) -> bool
    ensures { IsTrue result ↔ IsEntry vars.now entry.now }
{
    match entry {
        Entry::Number(number) => is_small(*number),
        Entry::Variable(var) => is_discrete(vars, *var),
    }
}

/// Whether the parts are within the limits, and fit these variables.
pub fn fits(vars: &[Var], x: u32, entries: &[Entry], z: u32) -> bool
    ensures { IsTrue result ↔ IsElement vars.now x entries.now z }
{
    is_set(vars, x)
        && entries.len() <= MOST_MEMBERS
        && entries.iter().all(|e| is_entry(vars, e))
        && is_discrete(vars, z)
}

/// What is left of a count without the size of the entries.
pub fn spend(entries: &[Entry], left: u64) -> Option<u64>
    ensures variant { IsSome result ↔ (element_size entries.now ≤ left) }
    ensures value { IfSome result (λ r. r + element_size entries.now ≡ left) }
{
    left_after(left, entries.len())
}

fn entry_passes<T: VarTest>(entry: &Entry, test: &T) -> bool
    ensures { IsTrue result ↔ EachEntryVar (λ v. T.passing test.now v ≡ true) entry.now }
{
    match entry {
        Entry::Number(_) => true,
        Entry::Variable(var) => test.test(*var),
    }
}

/// Whether each variable of the parts passes the test.
pub fn every_var<T: VarTest>(x: u32, entries: &[Entry], z: u32, test: &T) -> bool
    ensures { IsTrue result ↔ EachElementVar (λ v. T.passing test.now v ≡ true) x entries.now z }
{
    test.test(x) && test.test(z) && entries.iter().all(|e| entry_passes(e, test))
}

/// The value of an entry, times the denominator.
fn entry_value<V: Values>(entry: &Entry, a: &V) -> i128
    ensures { result ≡ entry_value (V.point a.now) entry.now }
{
    match entry {
        Entry::Number(number) => scaled(*number, a),
        Entry::Variable(var) => a.numerator(*var),
    }
}

/// Whether x is the number of an entry, and z equals that entry.
pub fn holds<V: Values>(x: u32, entries: &[Entry], z: u32, a: &V) -> bool
    ensures { IsTrue result ↔ SatElement x entries.now z (V.point a.now) }
{
    match place(a, x, entries.len()) {
        Some(j) => a.numerator(z) == entry_value(&entries[j], a),
        None => false,
    }
}
