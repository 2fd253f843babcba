//! Ranges of whole numbers, by their ends.
ghost use Rattle.std.specs.Prelude.{◌≡◌, ◌≢◌, ◌<◌, ◌≤◌, ◌≤ℤ◌, ◌^◌, ◌↔◌, length, unsigned_abs, IsTrue, pos};
ghost use Rattle.sm_kinds.specs.Literals.{opposite, beyond};
ghost use Rattle.sm_kinds.specs.Vars.{IsBetween, LiesIn};
ghost use Rattle.sm_kinds.specs.declared.var.VarKind.TheVariants.{Int as Ranged};
ghost use Rattle.sm_store.specs.Stores.{kept_range, range, cut_range, agreed, is_empty, truth_in};
ghost use Rattle.sm_store.specs.Blocks.{IsSummary};

use crate::summary::{NOTHING, Summary};
use sm_flat::{Literal, Test};

/// The ends of what the literal leaves of a range; they cross where it leaves nothing.
fn cut(literal: &Literal, least: i64, greatest: i64) -> (i64, i64)
    requires least { unsigned_abs least ≤ 2 ^ 31 }
    requires greatest { unsigned_abs greatest ≤ 2 ^ 31 }
    ensures range { cut_range literal.now.test literal.now.bound least greatest ≡ range result.0 result.1 }
    ensures least { least ≤ℤ result.0 }
    ensures greatest { result.1 ≤ℤ greatest }
{
    let bound = literal.bound;
    match literal.test {
        Test::AtMost => (least, greatest.min(bound)),
        Test::AtLeast => (least.max(bound), greatest),
        Test::Equal => (least.max(bound), greatest.min(bound)),
        Test::Unequal => {
            if bound == least {
                (least + 1, greatest)
            } else if bound == greatest {
                (least, greatest - 1)
            } else {
                (least, greatest)
            }
        }
    }
}

/// What the cells say of a range.
pub(crate) fn summary_between(first: &i64, last: &i64) -> Summary
    requires first { unsigned_abs first.now ≤ 2 ^ 31 }
    requires last { unsigned_abs last.now ≤ 2 ^ 31 }
    requires order { first.now ≤ℤ last.now }
    ensures summary { IsSummary Ranged (range first.now last.now) result }
    ensures first { result.least ≡ first.now }
    ensures last { result.greatest ≡ last.now }
{
    Summary {
        least: *first,
        greatest: *last,
        size: (*last - *first).unsigned_abs() + 1,
    }
}

/// What the literal leaves of the range.
pub(crate) fn kept(literal: &Literal, least: i64, greatest: i64) -> Summary
    requires least { unsigned_abs least ≤ 2 ^ 31 }
    requires greatest { unsigned_abs greatest ≤ 2 ^ 31 }
    ensures range { range result.least result.greatest ≡ kept_range literal.now (range least greatest) }
    ensures summary { IsSummary Ranged (range result.least result.greatest) result }
    ensures least { unsigned_abs result.least ≤ 2 ^ 31 }
    ensures greatest { unsigned_abs result.greatest ≤ 2 ^ 31 }
{
    if greatest < least {
        return NOTHING;
    }
    let (first, last) = cut(literal, least, greatest);
    if last < first {
        return NOTHING;
    }
    summary_between(&first, &last)
}

/// Whether the literal leaves a number of the range.
pub(crate) fn leaves(literal: &Literal, least: i64, greatest: i64) -> bool
    requires least { unsigned_abs least ≤ 2 ^ 31 }
    requires greatest { unsigned_abs greatest ≤ 2 ^ 31 }
    ensures { IsTrue result ↔ (0 < length (kept_range literal.now (range least greatest))) }
{
    if greatest < least {
        return false;
    }
    let (first, last) = cut(literal, least, greatest);
    first <= last
}

/// Whether the literal makes the range another one.
pub(crate) fn changes(literal: &Literal, least: i64, greatest: i64) -> bool
    requires least { unsigned_abs least ≤ 2 ^ 31 }
    requires greatest { unsigned_abs greatest ≤ 2 ^ 31 }
    ensures { IsTrue result ↔ (kept_range literal.now (range least greatest) ≢ range least greatest) }
{
    if greatest < least {
        return false;
    }
    let (first, last) = cut(literal, least, greatest);
    first != least || last != greatest
}

/// Whether the literal leaves no number of a range.
fn is_never(literal: &Literal, least: i64, greatest: i64) -> bool
    requires least { unsigned_abs least ≤ 2 ^ 31 }
    requires greatest { unsigned_abs greatest ≤ 2 ^ 31 }
    ensures { result ≡ is_empty (cut_range literal.now.test literal.now.bound least greatest) }
{
    let (first, last) = cut(literal, least, greatest);
    last < first
}

/// The literal with another test.
fn with_test(literal: &Literal, test: Test) -> Literal
    ensures { result ≡ record literal.now { test = test } }
{
    Literal {
        var: literal.var,
        test,
        bound: literal.bound,
    }
}

/// Whether the complement of the literal leaves no number of a range.
#[tactic(auto, using(crate::proofs::Ranges::empty_above, crate::proofs::Ranges::empty_below))]
fn is_always(literal: &Literal, least: i64, greatest: i64) -> bool
    requires least { unsigned_abs least ≤ 2 ^ 31 }
    requires greatest { unsigned_abs greatest ≤ 2 ^ 31 }
    requires order { least ≤ℤ greatest }
    ensures { result ≡ is_empty (cut_range (opposite literal.now.test) (beyond literal.now.test literal.now.bound) least greatest) }
{
    match literal.test {
        Test::AtMost => greatest <= literal.bound,
        Test::AtLeast => literal.bound <= least,
        Test::Equal => is_never(&with_test(literal, Test::Unequal), least, greatest),
        Test::Unequal => is_never(&with_test(literal, Test::Equal), least, greatest),
    }
}

/// What a test of a number is for all numbers of a range, where they agree.
fn truth_between(literal: &Literal, least: i64, greatest: i64) -> Option<bool>
    requires least { unsigned_abs least ≤ 2 ^ 31 }
    requires greatest { unsigned_abs greatest ≤ 2 ^ 31 }
    requires order { least ≤ℤ greatest }
    ensures { result ≡ agreed (is_empty (cut_range (opposite literal.now.test) (beyond literal.now.test literal.now.bound) least greatest)) (is_empty (cut_range literal.now.test literal.now.bound least greatest)) }
{
    if is_always(literal, least, greatest) {
        Some(true)
    } else if is_never(literal, least, greatest) {
        Some(false)
    } else {
        None
    }
}

/// What the literal is for all numbers of a range, where they agree.
pub(crate) fn truth(literal: &Literal, least: i64, greatest: i64) -> Option<bool>
    requires least { unsigned_abs least ≤ 2 ^ 31 }
    requires greatest { unsigned_abs greatest ≤ 2 ^ 31 }
    ensures { result ≡ truth_in literal.now (record { kind = Ranged; values = range least greatest; base = pos 0 }) }
{
    if greatest < least {
        return None;
    }
    truth_between(literal, least, greatest)
}

/// Whether the number is between the ends.
pub(crate) fn is_between(value: &i64, least: i64, greatest: i64) -> bool
    requires least { unsigned_abs least ≤ 2 ^ 31 }
    requires greatest { unsigned_abs greatest ≤ 2 ^ 31 }
    ensures { IsTrue result ↔ IsBetween value.now (pos 1) (range least greatest) }
{
    least <= *value && *value <= greatest
}

/// Whether the whole number is between the ends.
#[tactic(auto, using(crate::proofs::Ranges::between_lies))]
pub(crate) fn is_inside(value: &i64, least: i64, greatest: i64) -> bool
    requires least { unsigned_abs least ≤ 2 ^ 31 }
    requires greatest { unsigned_abs greatest ≤ 2 ^ 31 }
    ensures { IsTrue result ↔ LiesIn Ranged (range least greatest) value.now (pos 1) }
{
    is_between(value, least, greatest)
}
