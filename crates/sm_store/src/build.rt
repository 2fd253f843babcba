//! The parts and the block of the declared domains.
ghost use Rattle.std.specs.Prelude.{◌≡◌, ◌*◌, ◌≤◌, ◌<◌, ◌≤ℤ◌, ◌<ℤ◌, ◌+ℤ◌, ◌^◌, ◌++◌, ◌∷◌, [], All, drop, length, pos, unsigned_abs, IfOk, OnOk};
ghost use Rattle.sm_kinds.specs.Vars.{IsDomain, IsSetDomain, IsRange, first_of, last_of};
ghost use Rattle.sm_kinds.specs.declared.var.Var.{Var as Variable};
ghost use Rattle.sm_kinds.specs.declared.var.VarKind.TheVariants.{Set as Listed};
ghost use Rattle.sm_store.specs.Stores.{base_of, base_below, extent_of, declared, range_size};
ghost use Rattle.sm_store.specs.Blocks.{values_of, values_in, IsPart, AreParts, AreCells, summary_in, HasMore, AreWide, extents};

use crate::place::Place;
use crate::set::count;
use crate::summary::{CELLS, Summary, write_cells};
use crate::words::{PLACES, place_of};
use sm_flat::{Var, VarKind};
use std::alloc::{AllocError, Global};

/// The greatest multiple of 64 at or below the number.
fn base_below(value: i64) -> i64
    requires { unsigned_abs value ≤ 2 ^ 31 }
    ensures value { result ≡ base_below value }
    ensures below { result ≤ℤ value }
    ensures near { unsigned_abs result ≤ 2 ^ 32 }
{
    value - value.rem_euclid(64)
}

/// Makes a place 1.
fn put(words: &mut [u64], place: usize)
    requires { place < 64 * length words.old }
    ensures { HasMore words.old words.new place }
{
    words[place / PLACES] |= 1 << (place % PLACES);
}

/// Makes the places of the values 1.
fn put_all(words: &mut [u64], base: &i64, values: &[i64])
    requires set { IsSetDomain values.now }
    requires wide { AreWide words.old base.now values.now }
    ensures values { values_of base.now words.new ≡ values.now }
    ensures len { length words.new ≡ length words.old }
{
    for value in values {
        put(words, place_of(value, base));
    }
}

/// Makes the places of the values 1 in the words of a part.
fn put_words(part: &mut [u64], base: &i64, values: &[i64])
    requires long { 3 ≤ length part.old }
    requires set { IsSetDomain values.now }
    requires wide { AreWide (drop 3 part.old) base.now values.now }
    ensures values { values_of base.now (drop 3 part.new) ≡ values.now }
    ensures len { length part.new ≡ length part.old }
{
    put_all(&mut part[CELLS..], base, values);
}

/// Makes a part that of these declared values.
#[tactic(auto, using(crate::proofs::Orders::domain_ordered))]
fn fill(part: &mut [u64], base: &i64, values: &[i64])
    requires long { 3 ≤ length part.old }
    requires few { length part.old ≤ 68 }
    requires near { unsigned_abs base.now ≤ 2 ^ 32 }
    requires set { IsSetDomain values.now }
    requires wide { AreWide (drop 3 part.old) base.now values.now }
    ensures part { IsPart Listed base.now part.new }
    ensures values { values_in Listed base.now part.new ≡ values.now }
{
    put_words(part, base, values);
    count(base, part);
}

/// How many words the declared values of a set need.
#[tactic(auto, using(crate::proofs::Declared::base_near), unfolding(crate::specs::Stores::base_of))]
fn words_for(base: &i64, values: &[i64]) -> usize
    requires set { IsSetDomain values.now }
    requires base { base.now ≡ base_of values.now }
    ensures few { result ≤ 65 }
    ensures low { base.now ≤ℤ first_of values.now }
    ensures high { last_of values.now <ℤ (base.now +ℤ pos (64 * result)) }
{
    place_of(&values[values.len() - 1], base) / PLACES + 1
}

/// The part of a set variable with these declared values.
#[tactic(auto, using(crate::proofs::Declared::zeros_wide))]
fn set_part(alloc: Global, base: &i64, values: &[i64]) -> Result<Vec<u64>, AllocError>
    requires set { IsSetDomain values.now }
    requires base { base.now ≡ base_of values.now }
    requires near { unsigned_abs base.now ≤ 2 ^ 32 }
    ensures part { IfOk result (λ part. IsPart Listed base.now part.items) }
    ensures values { IfOk result (λ part. values_in Listed base.now part.items ≡ values.now) }
{
    let mut part = vec![in alloc; 0; CELLS + words_for(base, values)]?;
    fill(&mut part, base, values);
    Ok(part)
}

/// Cells with the ends of a range, and this size.
fn range_part(alloc: Global, values: &[i64], size: u64) -> Result<Vec<u64>, AllocError>
    requires { IsRange values.now }
    ensures cells { IfOk result (λ part. AreCells part.items) }
    ensures summary { IfOk result (λ part. summary_in part.items ≡ record { least = first_of values.now; greatest = last_of values.now; size = size }) }
    ensures len { IfOk result (λ part. length part.items ≡ 3) }
{
    let mut part = vec![in alloc; 0; CELLS]?;
    let summary = Summary {
        least: values[0],
        greatest: values[1],
        size,
    };
    write_cells(&mut part, &summary);
    Ok(part)
}

/// How many whole numbers a range has.
fn range_size(values: &[i64]) -> u64
    requires { IsRange values.now }
    ensures { result ≡ range_size values.now }
{
    (values[1] - values[0]).unsigned_abs() + 1
}

/// The part of a variable.
fn declared_part(alloc: Global, base: &i64, var: &Var) -> Result<Vec<u64>, AllocError>
    requires domain { IsDomain var.now.kind var.now.values }
    requires base { base.now ≡ base_of var.now.values }
    requires near { unsigned_abs base.now ≤ 2 ^ 32 }
    ensures part { IfOk result (λ part. IsPart var.now.kind base.now part.items) }
    ensures values { IfOk result (λ part. values_in var.now.kind base.now part.items ≡ var.now.values) }
{
    let values = var.values.as_slice();
    match var.kind {
        VarKind::Set => set_part(alloc, base, values),
        VarKind::Int => range_part(alloc, values, range_size(values)),
        VarKind::Real => range_part(alloc, values, 0),
    }
}

/// The base of a variable.
#[tactic(auto, unfolding(crate::specs::Stores::base_of))]
fn base_of(var: &Var) -> i64
    requires { IsDomain var.now.kind var.now.values }
    ensures value { result ≡ base_of var.now.values }
    ensures near { unsigned_abs result ≤ 2 ^ 32 }
{
    base_below(var.values.as_slice()[0])
}

fn new_place(var: &Var, base: &i64, start: usize, end: usize) -> Place
    ensures { result ≡ record { kind = var.now.kind; base = base.now; start = start; end = end } }
{
    Place {
        kind: var.kind,
        base: *base,
        start,
        end,
    }
}

/// Adds the part of a variable to the block.
fn add(
    alloc: Global,
    places: &mut Vec<Place>,
    block: &mut Vec<u64>,
    var: &Var,
) -> Result<(), AllocError>
    requires domain { IsDomain var.now.kind var.now.values }
    requires parts { AreParts places.old.items block.old.items }
    ensures extents { OnOk result (extents places.new.items block.new.items ≡ extents places.old.items block.old.items ++ extent_of var.now ∷ []) }
    ensures parts { OnOk result (AreParts places.new.items block.new.items) }
{
    let base = base_of(var);
    let part = declared_part(alloc, &base, var)?;
    let start = block.len();
    block.extend_from_slice(part.as_slice())?;
    let place = new_place(var, &base, start, block.len());
    places.push(place)?;
    Ok(())
}

/// The places and the block of the declared domains.
pub(crate) fn declared_block(
    alloc: Global,
    vars: &[Var],
) -> Result<(Vec<Place>, Vec<u64>), AllocError>
    requires { All (λ (v : Variable). IsDomain v.kind v.values) vars.now }
    ensures extents { IfOk result (λ b. extents b.0.items b.1.items ≡ declared vars.now) }
    ensures parts { IfOk result (λ b. AreParts b.0.items b.1.items) }
{
    let mut places = Vec::with_capacity(alloc, vars.len())?;
    let mut block = Vec::new(alloc);
    for var in vars {
        add(alloc, &mut places, &mut block, var)?;
    }
    Ok((places, block))
}
