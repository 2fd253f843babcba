//! Boxes: the least and the greatest value that a column has in a store.
ghost use Rattle.std.specs.Prelude.{◌≡◌, ◌<◌, ◌<ℤ◌, ◌≤ℤ◌, ◌*ℤ◌, List, length, pos};
ghost use Rattle.sm_kinds.specs.Points.{Point};
ghost use Rattle.sm_flat.specs.Models.{FlatModel};
ghost use Rattle.sm_store.specs.Stores.{In, IsStoreOf, extent_at, fixed_value};
ghost use Rattle.sm_step.specs.declared.row.Col.TheVariants.{Var as Known};
ghost use Rattle.sm_rows.specs.Rows.{column_at};
ghost use Rattle.sm_rows.specs.Boxes.{is_value, is_only, indicator_box, box_of, variable_of};

use sm_step::Col;
use sm_store::Store;

/// Whether the variable may have the value.
fn is_value(store: &Store, var: u32, value: &i64) -> bool
    requires { var < length store.now }
    ensures { result ≡ is_value (extent_at store.now var).kind (extent_at store.now var).values value.now }
{
    store.has(var, *value)
}

fn is_only(fixed: Option<i64>, value: &i64) -> bool
    ensures { result ≡ is_only fixed value.now }
{
    match fixed {
        Some(known) => known == *value,
        None => false,
    }
}

/// Whether the variable can have no other value.
fn is_fixed(store: &Store, var: u32, value: &i64) -> bool
    requires { var < length store.now }
    ensures { result ≡ is_only (fixed_value (extent_at store.now var).kind (extent_at store.now var).values) value.now }
{
    is_only(store.fixed(var), value)
}

/// The ends of a variable's domain, and 0 to 0 where that is empty.
fn variable_box(store: &Store, var: u32) -> (i64, i64)
    ensures { result ≡ box_of store.now (Known var) }
{
    if var as usize >= store.len() {
        return (0, 0);
    }
    match store.bounds(var) {
        Some(ends) => ends,
        None => (0, 0),
    }
}

/// The ends of an indicator: 0 to 0 where the variable can't have the value, 1 to 1 where it has no other, else 0 to 1.
fn indicator_box(store: &Store, var: u32, value: &i64) -> (i64, i64)
    ensures { result ≡ indicator_box (extent_at store.now var) value.now }
{
    if var as usize >= store.len() {
        return (0, 0);
    }
    if !is_value(store, var, value) {
        return (0, 0);
    }
    if is_fixed(store, var, value) {
        return (1, 1);
    }
    (0, 1)
}

/// The least and the greatest value that the column has in the store.
pub fn box_of(store: &Store, column: &Col) -> (i64, i64)
    ensures value { result ≡ box_of store.now column.now }
    // What an assignment in the store gives the column lies in the box.
    ensures law { (m : FlatModel) (a : Point) → IsStoreOf m store.now → variable_of column.now < length store.now → pos 0 <ℤ a.denominator → In a store.now → ((result.0 *ℤ a.denominator) ≤ℤ (column_at a column.now)) × ((column_at a column.now) ≤ℤ (result.1 *ℤ a.denominator)) }
{
    match column {
        Col::Var(var) => variable_box(store, *var),
        Col::Is(var, value) => indicator_box(store, *var, value),
    }
}
