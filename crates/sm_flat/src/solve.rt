//! Whether an assignment fits a model and satisfies its constraints.
ghost use Rattle.std.specs.Prelude.{◌≡◌, ◌<◌, ◌≤◌, ◌%◌, ◌↔◌, ◌*ℤ◌, ◌≤ℤ◌, ℕ, List, pos, Some, IsTrue, true, length, slice_get, slice_index_or};
ghost use Rattle.sm_kinds.specs.Limits.{most_variables};
ghost use Rattle.sm_kinds.specs.Points.{HasValue};
ghost use Rattle.sm_kinds.specs.Vars.{IsOneOf, IsBetween, IsMultiple, LiesIn, var_at};
ghost use Rattle.sm_kinds.specs.declared.var.Var.{Var as Variable};
ghost use Rattle.sm_flat.specs.Assignments.{point_of};
ghost use Rattle.sm_flat.specs.Forms.{Sat, IsForm, EachVar};
ghost use Rattle.sm_flat.specs.Limits.{AreConstraints};
ghost use Rattle.sm_flat.specs.Solutions.{Fits, Solves};
ghost use Rattle.sm_flat.specs.declared.form.Constraint.{Constraint as Stated};

use crate::assignment::Assignment;
use crate::flat::Flat;
use crate::form::{Constraint, each_var, holds_form};
use sm_kinds::{Values, Var, VarKind, VarTest, scaled};

/// Whether variable i has this whole value.
fn has_value<V: Values>(value: i64, a: &V, i: u32) -> bool
    ensures { IsTrue result ↔ HasValue (V.point a.now) i value }
{
    a.numerator(i) == scaled(value, a)
}

/// Whether variable i has one of these values.
fn is_one_of<V: Values>(values: &[i64], a: &V, i: u32) -> bool
    ensures { IsTrue result ↔ IsOneOf ((V.point a.now).numerator i) (V.point a.now).denominator values.now }
{
    for value in values {
        if has_value(*value, a, i) {
            return true;
        }
    }
    false
}

/// Whether the value of variable i is at least a whole number.
fn is_at_least<V: Values>(least: i64, a: &V, i: u32) -> bool
    ensures { IsTrue result ↔ ((least *ℤ (V.point a.now).denominator) ≤ℤ (V.point a.now).numerator i) }
{
    scaled(least, a) <= a.numerator(i)
}

/// Whether the value of variable i is at most a whole number.
fn is_at_most<V: Values>(greatest: i64, a: &V, i: u32) -> bool
    ensures { IsTrue result ↔ ((V.point a.now).numerator i ≤ℤ (greatest *ℤ (V.point a.now).denominator)) }
{
    a.numerator(i) <= scaled(greatest, a)
}

/// Whether the value of variable i is between the two ends.
fn is_between<V: Values>(values: &[i64], a: &V, i: u32) -> bool
    ensures { IsTrue result ↔ IsBetween ((V.point a.now).numerator i) (V.point a.now).denominator values.now }
{
    values.len() >= 2 && is_at_least(values[0], a, i) && is_at_most(values[1], a, i)
}

/// The rest of a division, the short way where the divisor is 1.
fn rest_of(whole: u128, unit: u128) -> u128
    requires { 0 < unit }
    ensures { result ≡ whole % unit }
{
    if unit == 1 { 0 } else { whole % unit }
}

/// Whether variable i has a whole value.
fn is_whole<V: Values>(a: &V, i: u32) -> bool
    ensures { IsTrue result ↔ IsMultiple ((V.point a.now).numerator i) (V.point a.now).denominator }
{
    let unit = u128::from(a.denominator().unsigned_abs());
    let whole = a.numerator(i).unsigned_abs();
    rest_of(whole, unit) == 0
}

/// Whether variable i has a value of its declared domain.
fn lies_in<V: Values>(var: &Var, a: &V, i: u32) -> bool
    ensures { IsTrue result ↔ LiesIn var.now.kind var.now.values ((V.point a.now).numerator i) (V.point a.now).denominator }
{
    let values = var.values.as_slice();
    match var.kind {
        VarKind::Set => is_one_of(values, a, i),
        VarKind::Int => is_between(values, a, i) && is_whole(a, i),
        VarKind::Real => is_between(values, a, i),
    }
}

/// Whether each variable has a value of its declared domain.
fn all_lie<V: Values>(vars: &[Var], a: &V) -> bool
    requires { length vars.now ≤ most_variables }
    ensures { IsTrue result ↔ ((i : ℕ) → i < length vars.now → LiesIn (var_at vars.now i).kind (var_at vars.now i).values ((V.point a.now).numerator i) (V.point a.now).denominator) }
{
    for i in 0..vars.len() {
        if !lies_in(&vars[i], a, i as u32) {
            return false;
        }
    }
    true
}

/// Whether each constraint holds.
fn all_hold<V: Values>(constraints: &[Constraint], a: &V) -> bool
    requires { (vars : List Variable) × AreConstraints vars constraints.now }
    ensures { IsTrue result ↔ ((k : ℕ) (c : Stated) → slice_get constraints.now k ≡ Some c → Sat c.form (V.point a.now)) }
{
    for k in 0..constraints.len() {
        let constraint = &constraints[k];
        if !holds_form(&constraint.form, a) {
            return false;
        }
    }
    true
}

/// Whether the assignment gives each variable a value of its declared domain.
pub fn fits(flat: &Flat, a: &Assignment) -> bool
    ensures { IsTrue result ↔ Fits flat.now (point_of a.now) }
{
    // Its denominator is above 0, whatever its values are.
    let _denominator = a.denominator();
    all_lie(flat.vars(), a)
}

/// Whether constraint k holds at these values.
pub fn holds<V: Values>(flat: &Flat, k: u32, a: &V) -> bool
    requires { k < length flat.now.constraints }
    ensures { (c : Stated) → slice_get flat.now.constraints k ≡ Some c → IsTrue result ↔ Sat c.form (V.point a.now) }
{
    holds_form(&flat.constraint(k).form, a)
}

/// Whether each variable of constraint k passes the test.
pub fn every_var<T: VarTest>(flat: &Flat, k: u32, test: &T) -> bool
    requires { k < length flat.now.constraints }
    ensures { (c : Stated) → slice_get flat.now.constraints k ≡ Some c → IsTrue result ↔ EachVar (λ v. T.passing test.now v ≡ true) c.form }
{
    each_var(&flat.constraint(k).form, test)
}

/// Whether the assignment has one value a variable and solves the model.
pub fn solves(flat: &Flat, a: &Assignment) -> bool
    ensures { IsTrue result ↔ ((length a.now.values ≡ length flat.now.vars) × Solves flat.now (point_of a.now)) }
{
    a.values().len() == flat.vars().len() && fits(flat, a) && all_hold(flat.constraints(), a)
}
