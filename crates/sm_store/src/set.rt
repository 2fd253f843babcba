//! Sets of values, by their cells and words.
ghost use Rattle.std.specs.Prelude.{◌≡◌, ◌≢◌, ◌<◌, ◌≤◌, ◌^◌, ◌↔◌, length, drop, filter, pos, unsigned_abs, IsTrue};
ghost use Rattle.sm_kinds.specs.Literals.{passes};
ghost use Rattle.sm_kinds.specs.declared.var.VarKind.TheVariants.{Set as Listed};
ghost use Rattle.sm_store.specs.Stores.{IsOrdered, truth_in};
ghost use Rattle.sm_store.specs.Blocks.{values_of, IsPart, IsSummary, KeepsPassing};

use crate::summary::{CELLS, Summary, summary_in, write_cells};
use crate::words::{MOST_WORDS, has, keep, leaves_some, summary_of, takes_some};
use sm_flat::Literal;

/// The words of a part.
pub(crate) fn words_in(part: &[u64]) -> &[u64]
    requires { 3 ≤ length part.now }
    ensures { result.now ≡ drop 3 part.now }
{
    &part[CELLS..]
}

/// Whether the literal leaves a value.
pub(crate) fn leaves(literal: &Literal, base: &i64, part: &[u64]) -> bool
    requires { IsPart Listed base.now part.now }
    ensures { IsTrue result ↔ (0 < length (filter (passes literal.now) (values_of base.now (drop 3 part.now)))) }
{
    let has = has(words_in(part), base, &literal.bound);
    leaves_some(literal, &summary_in(part), has)
}

/// Whether the literal takes a value out.
fn takes(literal: &Literal, base: &i64, part: &[u64]) -> bool
    requires { IsPart Listed base.now part.now }
    ensures { IsTrue result ↔ (length (filter (passes literal.now) (values_of base.now (drop 3 part.now))) < length (values_of base.now (drop 3 part.now))) }
{
    let has = has(words_in(part), base, &literal.bound);
    takes_some(literal, &summary_in(part), has)
}

/// Whether the literal makes the set another one.
#[tactic(auto, using(crate::proofs::Filters::fewer_other, crate::proofs::Filters::other_fewer))]
pub(crate) fn changes(literal: &Literal, base: &i64, part: &[u64]) -> bool
    requires { IsPart Listed base.now part.now }
    ensures { IsTrue result ↔ (filter (passes literal.now) (values_of base.now (drop 3 part.now)) ≢ values_of base.now (drop 3 part.now)) }
{
    takes(literal, base, part)
}

/// Whether there is a value.
#[tactic(auto, using(crate::proofs::Cells::not_crossing, crate::proofs::Cells::crossing))]
fn has_value(base: &i64, part: &[u64]) -> bool
    requires { IsPart Listed base.now part.now }
    ensures { IsTrue result ↔ (0 < length (values_of base.now (drop 3 part.now))) }
{
    let summary = summary_in(part);
    summary.least <= summary.greatest
}

/// What the literal is for all values, where they agree.
#[tactic(auto, using(crate::proofs::Filters::truth_same, crate::proofs::Filters::truth_none, crate::proofs::Filters::truth_mixed))]
pub(crate) fn truth(literal: &Literal, base: &i64, part: &[u64]) -> Option<bool>
    requires { IsPart Listed base.now part.now }
    ensures { result ≡ truth_in literal.now (record { kind = Listed; values = values_of base.now (drop 3 part.now); base = pos 0 }) }
{
    if !has_value(base, part) {
        return None;
    }
    if !takes(literal, base, part) {
        return Some(true);
    }
    if !leaves(literal, base, part) {
        return Some(false);
    }
    None
}

/// The ends of the values of which the literal is true, and how many there are.
#[tactic(auto, using(crate::proofs::Cells::kept_values))]
fn summary_passing(literal: &Literal, base: &i64, part: &[u64]) -> Summary
    requires { IsPart Listed base.now part.now }
    ensures { IsSummary Listed (filter (passes literal.now) (values_of base.now (drop 3 part.now))) result }
{
    let words = words_in(part);
    let mut room = [0u64; MOST_WORDS];
    let left = &mut room[..words.len()];
    left.copy_from_slice(words);
    keep(left, base, literal);
    summary_of(left, base)
}

/// What the cells of a part would say of the values of which the literal is true.
pub(crate) fn summary_left(literal: &Literal, base: &i64, part: &[u64]) -> Summary
    requires { IsPart Listed base.now part.now }
    ensures summary { IsSummary Listed (filter (passes literal.now) (values_of base.now (drop 3 part.now))) result }
    ensures least { unsigned_abs result.least ≤ 2 ^ 31 }
    ensures greatest { unsigned_abs result.greatest ≤ 2 ^ 31 }
{
    summary_passing(literal, base, part)
}

/// Keeps the values of which the literal is true, in the words alone.
fn keep_words(literal: &Literal, base: &i64, part: &mut [u64])
    requires long { 3 ≤ length part.old }
    requires few { length part.old ≤ 68 }
    requires near { unsigned_abs base.now ≤ 2 ^ 32 }
    ensures words { KeepsPassing (passes literal.now) base.now (drop 3 part.old) (drop 3 part.new) }
    ensures len { length part.new ≡ length part.old }
{
    keep(&mut part[CELLS..], base, literal);
}

/// Makes the cells of a part those of its words.
pub(crate) fn count(base: &i64, part: &mut [u64])
    requires long { 3 ≤ length part.old }
    requires few { length part.old ≤ 68 }
    requires near { unsigned_abs base.now ≤ 2 ^ 32 }
    requires ordered { IsOrdered Listed (values_of base.now (drop 3 part.old)) }
    ensures part { IsPart Listed base.now part.new }
    ensures words { drop 3 part.new ≡ drop 3 part.old }
    ensures len { length part.new ≡ length part.old }
{
    let summary = summary_of(words_in(part), base);
    write_cells(part, &summary);
}

/// Keeps the values of which the literal is true.
#[tactic(auto, using(crate::proofs::Cells::kept_values, crate::proofs::Orders::ordered_kept))]
pub(crate) fn narrow(literal: &Literal, base: &i64, part: &mut [u64])
    requires { IsPart Listed base.now part.old }
    ensures part { IsPart Listed base.now part.new }
    ensures values { values_of base.now (drop 3 part.new) ≡ filter (passes literal.now) (values_of base.now (drop 3 part.old)) }
    ensures len { length part.new ≡ length part.old }
{
    keep_words(literal, base, part);
    count(base, part);
}
