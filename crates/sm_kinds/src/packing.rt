//! Packing: items in groups of bounded capacity, at the cost of the items in their groups and of the groups that are opened.
ghost use Rattle.std.specs.Prelude.{◌≡◌, ◌≤◌, ◌<◌, ◌+◌, ◌*◌, ◌^◌, ◌↔◌, ◌≤ℤ◌, ◌-ℤ◌, ◌*ℤ◌, ℕ, ℤ, pos, List, ◌∷◌, map, Some, IsTrue, IsSome, IfSome, true, length, All, unsigned_abs, slice_get, if◌then◌else◌};
ghost use Rattle.std.specs.List.{list_any};
ghost use Rattle.sm_kinds.specs.declared.packing.Item.{Item as Stated};
ghost use Rattle.sm_kinds.specs.declared.var.Var.{Var as Variable};
ghost use Rattle.sm_kinds.specs.Choices.{AddUpTo};
ghost use Rattle.sm_kinds.specs.Limits.{IsAmount, IsSmall, most_groups, most_items};
ghost use Rattle.sm_kinds.specs.Points.{HasValue};
ghost use Rattle.sm_kinds.specs.Packing.{IsItem, IsCapacity, IsPacking, packing_size, EachPackingVar, is_in, load_of, opening_costs, item_pick, SatPacking};

use crate::choice::without_chosen;
use crate::limits::{MOST_CAPACITY, MOST_GROUPS, MOST_ITEMS, are_small, is_amount, left_after};
use crate::values::{Values, VarTest, scaled};
use crate::var::{Var, is_discrete, is_set};
use sqlite_items::Items;

/// An item of a packing.
#[derive(Drop)]
pub struct Item {
    /// The number of the variable that has the number of its group.
    pub group: u32,
    pub size: i64,
    /// What it costs in each group.
    pub costs: Items<i64>,
}

/// Items, each in one group. Each group has a capacity and a cost of opening it, and `z` is to have all costs.
#[derive(Drop)]
pub struct Packing {
    pub z: u32,
    pub capacities: Items<i64>,
    pub opening: Items<i64>,
    pub items: Items<Item>,
}

fn is_item(vars: &[Var], groups: usize, item: &Item) -> bool
    ensures { IsTrue result ↔ IsItem vars.now groups item.now }
{
    let costs = item.costs.as_slice();
    is_set(vars, item.group) && is_amount(item.size) && costs.len() == groups && are_small(costs)
}

fn is_capacity(capacity: i64) -> bool
    ensures { IsTrue result ↔ IsCapacity capacity }
{
    0 <= capacity && capacity <= MOST_CAPACITY
}

/// Whether the groups are within the limits, each with a cost of opening it.
fn are_groups(capacities: &[i64], opening: &[i64]) -> bool
    ensures { IsTrue result ↔ ((length capacities.now ≤ most_groups) × All IsCapacity capacities.now × (length opening.now ≡ length capacities.now) × All IsAmount opening.now) }
{
    capacities.len() <= MOST_GROUPS
        && capacities.iter().all(|c| is_capacity(*c))
        && opening.len() == capacities.len()
        && opening.iter().all(|c| is_amount(*c))
}

/// Whether the parts are within the limits, and fit these variables.
pub fn fits(vars: &[Var], packing: &Packing) -> bool
    ensures { IsTrue result ↔ IsPacking vars.now packing.now }
{
    let capacities = packing.capacities.as_slice();
    let items = packing.items.as_slice();
    is_discrete(vars, packing.z)
        && are_groups(capacities, packing.opening.as_slice())
        && items.len() <= MOST_ITEMS
        && items.iter().all(|i| is_item(vars, capacities.len(), i))
}

/// What is left of a count without the size of the packing, which counts for none.
pub fn spend(_packing: &Packing, left: u64) -> Option<u64>
    ensures variant { IsSome result ↔ (packing_size _packing.now ≤ left) }
    ensures value { IfSome result (λ r. r + packing_size _packing.now ≡ left) }
{
    left_after(left, 0)
}

/// Whether each variable passes the test.
pub fn every_var<T: VarTest>(packing: &Packing, test: &T) -> bool
    ensures { IsTrue result ↔ EachPackingVar (λ v. T.passing test.now v ≡ true) packing.now }
{
    test.test(packing.z) && packing.items.as_slice().iter().all(|i| test.test(i.group))
}

/// Whether the item is in the group.
fn is_in<V: Values>(item: &Item, group: usize, a: &V) -> bool
    requires { group < most_groups }
    ensures { result ≡ is_in (V.point a.now) group item.now }
{
    a.numerator(item.group) == scaled(group as i64, a)
}

/// What an item adds to the load of a group.
fn size_in<V: Values>(item: &Item, group: usize, a: &V) -> i64
    requires known { group < most_groups }
    requires size { IsAmount item.now.size }
    ensures value { result ≡ (if is_in (V.point a.now) group item.now then item.now.size else pos 0) }
    ensures bound { unsigned_abs result ≤ 2 ^ 31 }
{
    if is_in(item, group, a) { item.size } else { 0 }
}

/// The sizes of the items in a group.
fn load_of<V: Values>(items: &[Item], group: usize, a: &V) -> i64
    requires known { group < most_groups }
    requires few { length items.now ≤ most_items }
    requires sizes { All (λ (i : Stated). IsAmount i.size) items.now }
    ensures { result ≡ load_of (V.point a.now) group items.now }
{
    let mut load: i64 = 0;
    for item in items {
        load += size_in(item, group, a);
    }
    load
}

/// Whether no group holds more than its capacity.
fn are_within<V: Values>(capacities: &[i64], items: &[Item], a: &V) -> bool
    requires groups { length capacities.now ≤ most_groups }
    requires few { length items.now ≤ most_items }
    requires sizes { All (λ (i : Stated). IsAmount i.size) items.now }
    ensures { IsTrue result ↔ ((g : ℕ) (capacity : ℤ) → slice_get capacities.now g ≡ Some capacity → load_of (V.point a.now) g items.now ≤ℤ capacity) }
{
    for g in 0..capacities.len() {
        if load_of(items, g, a) > capacities[g] {
            return false;
        }
    }
    true
}

/// Whether some item is in the group.
fn holds_an_item<V: Values>(items: &[Item], group: usize, a: &V) -> bool
    requires { group < most_groups }
    ensures { result ≡ list_any (is_in (V.point a.now) group) items.now }
{
    items.iter().any(|i| is_in(i, group, a))
}

/// What a group adds to the opening costs.
fn cost_if_used<V: Values>(cost: i64, items: &[Item], group: usize, a: &V) -> i64
    requires known { group < most_groups }
    requires amount { IsAmount cost }
    ensures value { result ≡ (if list_any (is_in (V.point a.now) group) items.now then cost else pos 0) }
    ensures bound { unsigned_abs result ≤ 2 ^ 31 }
{
    if holds_an_item(items, group, a) {
        cost
    } else {
        0
    }
}

/// The opening costs of the groups that hold an item.
fn opening_costs<V: Values>(opening: &[i64], items: &[Item], a: &V) -> i64
    requires groups { length opening.now ≤ most_groups }
    requires small { All IsAmount opening.now }
    ensures value { result ≡ opening_costs (V.point a.now) items.now 0 opening.now }
    ensures bound { unsigned_abs result ≤ 2 ^ 37 }
{
    let mut total: i64 = 0;
    for g in 0..opening.len() {
        total += cost_if_used(opening[g], items, g, a);
    }
    total
}

/// What is left of a total without the item's cost in its group; none where it is in none.
fn without_cost<V: Values>(item: &Item, total: i128, a: &V) -> Option<i128>
    requires { unsigned_abs total ≤ 2 ^ 126 }
    ensures variant { IsSome result ↔ ((j : ℕ) × (j < length item.now.costs) × HasValue (V.point a.now) item.now.group (pos j)) }
    ensures value { IfSome result (λ r. (ps : List (ℕ × List ℤ)) → AddUpTo (V.point a.now) ps r ↔ AddUpTo (V.point a.now) (item_pick item.now ∷ ps) total) }
    ensures bound { IfSome result (λ r. unsigned_abs r ≤ unsigned_abs total + 2 ^ 115) }
{
    without_chosen(item.group, item.costs.as_slice(), total, a)
}

/// Whether each item is in a group, and their costs there add up to the total, which is times the denominator.
fn costs_add_up<V: Values>(items: &[Item], total: i128, a: &V) -> bool
    requires few { length items.now ≤ most_items }
    requires room { unsigned_abs total ≤ 2 ^ 120 }
    ensures { IsTrue result ↔ AddUpTo (V.point a.now) (map item_pick items.now) total }
{
    let mut rest = total;
    for item in items {
        match without_cost(item, rest, a) {
            Some(left) => rest = left,
            None => return false,
        }
    }
    rest == 0
}

/// What is left of the value of z without the opening costs, times the denominator.
fn without_opening<V: Values>(z: u32, opened: i64, a: &V) -> i128
    ensures value { result ≡ (V.point a.now).numerator z -ℤ (opened *ℤ (V.point a.now).denominator) }
    ensures bound { unsigned_abs result ≤ 2 ^ 120 }
{
    a.numerator(z) - scaled(opened, a)
}

/// Whether each item is in a group, no group holds more than its capacity, and z has the costs.
pub fn holds<V: Values>(packing: &Packing, a: &V) -> bool
    requires { (vars : List Variable) × IsPacking vars packing.now }
    ensures { IsTrue result ↔ SatPacking packing.now (V.point a.now) }
{
    let items = packing.items.as_slice();
    let opened = opening_costs(packing.opening.as_slice(), items, a);
    are_within(packing.capacities.as_slice(), items, a)
        && costs_add_up(items, without_opening(packing.z, opened, a), a)
}
