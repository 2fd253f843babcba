//! Assignments of fractions with a common denominator.
ghost use Rattle.std.specs.Prelude.{◌≡◌, ◌≤◌, ◌^◌, ◌↔◌, ◌≤ℤ◌, pos, IsTrue, IfOk, length, unsigned_abs};
ghost use Rattle.sm_flat.specs.Assignments.{IsAssignment, point_of};

use sm_kinds::Values;
use sqlite_items::Items;
use std::alloc::{AllocError, Global};
use std::marker::Model;

/// Variable i has the value of numerator i over the denominator. The denominator is from 1 to 2^52, and each
/// value lies within 2^31 in absolute value.
#[derive(Drop)]
pub struct Assignment {
    denominator: i64,
    values: Items<i128>,
}

impl Model for Assignment {
    ghost use Rattle.sm_flat.specs.Assignments.{Numbers, IsAssignment};

    ghost Value = { Numbers };

    ghost view = { λ a. record { denominator = a.denominator; values = a.values } };

    ghost invariant = { λ a. IsAssignment a.denominator a.values };
}

/// Whether these numbers over the denominator are an assignment.
pub fn is_assignment(denominator: i64, numerators: &[i128]) -> bool
    ensures { IsTrue result ↔ IsAssignment denominator numerators.now }
{
    if denominator < 1 {
        return false;
    }
    if denominator > 1 << 52 {
        return false;
    }
    let most = (denominator as u128) << 31;
    numerators.iter().all(|n| n.unsigned_abs() <= most)
}

impl Assignment {
    /// The assignment of these numerators over the denominator.
    pub fn new(denominator: i64, values: Items<i128>) -> Assignment
        requires { IsAssignment denominator values }
        ensures { result ≡ record { denominator = denominator; values = values } }
    {
        Assignment {
            denominator,
            values,
        }
    }

    /// A copy in memory of its own.
    pub fn copy(&self, alloc: Global) -> Result<Assignment, AllocError>
        ensures { IfOk result (λ a. a ≡ self.now) }
    {
        let values = Items::from_slice(alloc, self.values.as_slice())?;
        Ok(Assignment {
            denominator: self.denominator,
            values,
        })
    }

    /// The common denominator.
    pub fn denominator(&self) -> i64
        ensures value { result ≡ self.now.denominator }
        ensures range { (pos 1 ≤ℤ result) × (result ≤ℤ pos (2 ^ 52)) }
    {
        self.denominator
    }

    /// The numerators, by variable.
    pub fn values(&self) -> &[i128]
        ensures { result.now ≡ self.now.values }
    {
        self.values.as_slice()
    }

    /// The numerator of a variable's value, or 0 where the assignment has none.
    pub fn numerator(&self, var: u32) -> i128
        ensures value { result ≡ (point_of self.now).numerator var }
        ensures bound { unsigned_abs result ≤ 2 ^ 83 }
        ensures denominator { (pos 1 ≤ℤ self.now.denominator) × (self.now.denominator ≤ℤ pos (2 ^ 52)) }
    {
        match self.values.get(var as usize) {
            Some(numerator) => *numerator,
            None => 0,
        }
    }
}

impl Values for Assignment {
    ghost use Rattle.sm_flat.specs.Assignments.{point_of};

    ghost point = { point_of };

    fn denominator(&self) -> i64
        ensures value { result ≡ (point_of self.now).denominator }
        ensures range { (pos 1 ≤ℤ result) × (result ≤ℤ pos (2 ^ 52)) }
    {
        self.denominator
    }

    fn numerator(&self, var: u32) -> i128
        ensures value { result ≡ (point_of self.now).numerator var }
        ensures bound { unsigned_abs result ≤ 2 ^ 83 }
    {
        Assignment::numerator(self, var)
    }
}
