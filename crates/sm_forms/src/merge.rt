//! The merge of two lists of terms.
ghost use Rattle.std.specs.Prelude.{◌≡◌, ℕ, ◌<◌, ◌≤◌, ◌+◌, ℤ, ◌+ℤ◌, ◌*ℤ◌, pos, [], length, drop, slice_index_or, ◌^◌, ◌↔◌, IfOk, IfErr, OnOk};
ghost use Rattle.std.specs.Bool.{OnTrue};
ghost use Rattle.sm_kinds.specs.Sums.{sum_at};
ghost use Rattle.sm_forms.specs.Meanings.{above, coefficient_above, greatest_value};
ghost use Rattle.sm_forms.specs.Forms.{Rises, IsRefused};
ghost use Rattle.sm_forms.specs.Merging.{Moves, Starts, terms_added, added_to};

use crate::numbers::{product, sum_of, within};
use crate::refusal::FormRefusal;
use sqlite_items::Items;
use std::alloc::Global;

/// What a merge takes next, and where it goes on.
#[derive(Clone, Copy, Drop)]
struct Next {
    var: u32,
    coefficient: i128,
    i: usize,
    j: usize,
}

/// The variable of the term at i, and behind the last a number above all variables.
fn var_at(terms: &[(u32, i64)], i: usize) -> u64
    ensures var { i < length terms.now → result ≡ (slice_index_or terms.now i (0, pos 0)).0 }
    ensures within { (result < 2 ^ 32) ↔ (i < length terms.now) }
    ensures most { result ≤ 2 ^ 32 }
{
    if i < terms.len() {
        u64::from(terms[i].0)
    } else {
        1 << 32
    }
}

/// The next term of left + by * right: the one of the least variable.
fn next_term(left: &[(u32, i64)], i: usize, by: i64, right: &[(u32, i64)], j: usize) -> Next
    requires i_in { i ≤ length left.now }
    requires j_in { j ≤ length right.now }
    requires some { i + j < length left.now + length right.now }
    ensures further { i + j < result.i + result.j }
    ensures i_in { result.i ≤ length left.now }
    ensures j_in { result.j ≤ length right.now }
    ensures moves { (n from : ℕ) → Rises n from (drop i left.now) → Rises n from (drop j right.now) →
        Moves n from left.now i by right.now j result }
{
    let left_var = var_at(left, i);
    let right_var = var_at(right, j);
    if left_var < right_var {
        return Next {
            var: left[i].0,
            coefficient: i128::from(left[i].1),
            i: i + 1,
            j,
        };
    }
    if right_var < left_var {
        return Next {
            var: right[j].0,
            coefficient: product(by, right[j].1),
            i,
            j: j + 1,
        };
    }
    Next {
        var: left[i].0,
        coefficient: sum_of(left[i].1, by, right[j].1),
        i: i + 1,
        j: j + 1,
    }
}

/// Puts a term at the end, unless its coefficient is 0.
fn push_term(terms: &mut Items<(u32, i64)>, var: u32, coefficient: i128) -> Result<(), FormRefusal>
    ensures rises { OnOk result ((from : ℕ) → from ≤ var → Rises from 0 terms.old → Rises (var + 1) 0 terms.new) }
    ensures total { OnOk result ((p : ℕ → ℤ) → sum_at terms.new p ≡ sum_at terms.old p +ℤ (coefficient *ℤ p var)) }
    ensures large { IfErr result (IsRefused (above greatest_value coefficient)) }
{
    let coefficient = within(coefficient)?;
    if coefficient != 0 {
        terms.push((var, coefficient))?;
    }
    Ok(())
}

/// The terms, and after them those of left + by * right, which have later variables.
fn merge_onto(
    mut terms: Items<(u32, i64)>,
    left: &[(u32, i64)],
    by: i64,
    right: &[(u32, i64)],
) -> Result<Items<(u32, i64)>, FormRefusal>
    ensures rises { IfOk result (λ v. (n : ℕ) → Starts n terms left.now right.now → Rises n 0 v) }
    ensures total { IfOk result (λ v. (n : ℕ) → Starts n terms left.now right.now →
        (p : ℕ → ℤ) → sum_at v p ≡ sum_at terms p +ℤ (sum_at left.now p +ℤ (by *ℤ sum_at right.now p))) }
    ensures large { IfErr result (λ e. (n : ℕ) → Starts n terms left.now right.now →
        IsRefused (coefficient_above greatest_value n (added_to terms left.now by right.now)) e) }
{
    let (mut i, mut j) = (0, 0);
    while i < left.len() || j < right.len() {
        let next = next_term(left, i, by, right, j);
        push_term(&mut terms, next.var, next.coefficient)?;
        i = next.i;
        j = next.j;
    }
    Ok(terms)
}

/// Whether all variables of the right come after those of the left.
fn follows(left: &[(u32, i64)], right: &[(u32, i64)]) -> bool
    ensures { OnTrue result ((n : ℕ) → Rises n 0 left.now → Rises n 0 right.now → Starts n left.now [] right.now) }
{
    match left.last() {
        Some(last) => u64::from(last.0) < var_at(right, 0),
        None => true,
    }
}

/// The terms of left + by * right: in place where those of the right come last.
pub(crate) fn merged(
    alloc: Global,
    left: Items<(u32, i64)>,
    by: i64,
    right: &[(u32, i64)],
) -> Result<Items<(u32, i64)>, FormRefusal>
    ensures rises { IfOk result (λ v. (n : ℕ) → Rises n 0 left → Rises n 0 right.now → Rises n 0 v) }
    ensures total { IfOk result (λ v. (n : ℕ) → Rises n 0 left → Rises n 0 right.now →
        (p : ℕ → ℤ) → sum_at v p ≡ sum_at left p +ℤ (by *ℤ sum_at right.now p)) }
    ensures large { IfErr result (λ e. (n : ℕ) → Rises n 0 left → Rises n 0 right.now →
        IsRefused (coefficient_above greatest_value n (terms_added left by right.now)) e) }
{
    if follows(left.as_slice(), right) {
        merge_onto(left, &[], by, right)
    } else {
        merge_onto(Items::new(alloc), left.as_slice(), by, right)
    }
}
