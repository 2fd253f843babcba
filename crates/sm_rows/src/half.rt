//! Halves of linear rows.
ghost use Rattle.std.specs.Prelude.{◌≡◌, ◌≤◌, ◌<◌, ◌^◌, ◌*ℤ◌, length, slice_index_or, pos, unsigned_abs};
ghost use Rattle.sm_store.specs.Stores.{extent_at};
ghost use Rattle.sm_rows.specs.Halves.{half_of, turned_number, IsGentle, IsOver, greatest_product, greatest_term, greatest_sum};

use sm_flat::{Cmp, LinRow};
use sm_store::Store;
use std::marker::Model;

/// Half of a linear row: its sum is to be at least a bound. A row that says 'at most' is turned, and an equation has two halves.
#[derive(Drop)]
pub struct Half<'a> {
    row: &'a LinRow,
    turned: bool,
}

impl<'a> Model for Half<'a> {
    ghost use Rattle.sm_rows.specs.Halves.{Bounded, side_of};

    ghost Value = { Bounded };

    ghost view = { λ h. side_of h.row.now h.turned };
}

/// A coefficient times a value of a domain, which leaves room for a sum of 1,024 such products.
fn product(coefficient: i128, value: i64) -> i128
    requires coefficient { unsigned_abs coefficient ≤ 2 ^ 31 }
    requires value { unsigned_abs value ≤ 2 ^ 31 }
    ensures value { result ≡ coefficient *ℤ value }
    ensures bound { unsigned_abs result ≤ 2 ^ 62 }
{
    coefficient * i128::from(value)
}

/// The greatest product of the coefficient with a number between the ends of the variable's domain.
pub fn greatest_product(coefficient: i128, store: &Store, var: u32) -> i128
    requires known { var < length store.now }
    requires small { unsigned_abs coefficient ≤ 2 ^ 31 }
    ensures value { result ≡ greatest_product coefficient (extent_at store.now var) }
    ensures bound { unsigned_abs result ≤ 2 ^ 62 }
{
    match store.bounds(var) {
        Some((least, greatest)) => {
            if coefficient >= 0 {
                product(coefficient, greatest)
            } else {
                product(coefficient, least)
            }
        }
        None => 0,
    }
}

/// A number, or its negation.
fn turn(number: i64, turned: bool) -> i128
    ensures { result ≡ turned_number turned number }
{
    if turned {
        -i128::from(number)
    } else {
        i128::from(number)
    }
}

impl<'a> Half<'a> {
    /// The half of this number, from 0; none where the row has no such half.
    pub fn of(row: &'a LinRow, half: u32) -> Option<Half<'a>>
        ensures { result ≡ half_of row.now half }
    {
        let turned = match (row.cmp, half) {
            (Cmp::AtMost, 0) | (Cmp::Equal, 1) => true,
            (Cmp::AtLeast, 0) | (Cmp::Equal, 0) => false,
            _ => return None,
        };
        Some(Half { row, turned })
    }

    /// How many terms the sum has.
    pub fn len(&self) -> usize
        ensures { result ≡ length self.now.terms }
    {
        self.row.terms.as_slice().len()
    }

    /// The variable of the term at a place.
    pub fn var(&self, place: usize) -> u32
        requires { place < length self.now.terms }
        ensures { result ≡ (slice_index_or self.now.terms place (0, pos 0)).0 }
    {
        self.row.terms.as_slice()[place].0
    }

    /// The coefficient of the term at a place.
    pub fn coefficient(&self, place: usize) -> i128
        requires { place < length self.now.terms }
        ensures { result ≡ (slice_index_or self.now.terms place (0, pos 0)).1 }
    {
        turn(self.row.terms.as_slice()[place].1, self.turned)
    }

    /// The coefficient at a place times a value of its variable.
    pub fn product(&self, place: usize, value: i64) -> i128
        requires within { place < length self.now.terms }
        requires gentle { IsGentle self.now }
        requires small { unsigned_abs value ≤ 2 ^ 31 }
        ensures value { result ≡ (slice_index_or self.now.terms place (0, pos 0)).1 *ℤ value }
        ensures bound { unsigned_abs result ≤ 2 ^ 62 }
    {
        product(self.coefficient(place), value)
    }

    /// What the sum is to be at least.
    pub fn bound(&self) -> i128
        ensures { result ≡ self.now.bound }
    {
        turn(self.row.bound, self.turned)
    }

    /// The greatest that the term at a place may be.
    pub fn greatest_term(&self, store: &Store, place: usize) -> i128
        requires within { place < length self.now.terms }
        requires gentle { IsGentle self.now }
        requires over { IsOver (length store.now) self.now }
        ensures value { result ≡ greatest_term store.now (slice_index_or self.now.terms place (0, pos 0)) }
        ensures bound { unsigned_abs result ≤ 2 ^ 62 }
    {
        greatest_product(self.coefficient(place), store, self.var(place))
    }

    /// The sum of the greatest terms.
    pub fn greatest(&self, store: &Store) -> i128
        requires gentle { IsGentle self.now }
        requires over { IsOver (length store.now) self.now }
        ensures value { result ≡ greatest_sum store.now self.now.terms }
        ensures bound { unsigned_abs result ≤ 2 ^ 72 }
    {
        let mut total: i128 = 0;
        for place in 0..self.len() {
            total += self.greatest_term(store, place);
        }
        total
    }
}
