//! Where each variable lies in the block of a store.
ghost use Rattle.std.specs.Prelude.{◌≡◌, ◌<◌, ◌↔◌, length, IsTrue};
ghost use Rattle.sm_store.specs.Stores.{extent_at, narrow, Changes};
ghost use Rattle.sm_store.specs.Blocks.{extents, AreParts, IsBlock};

use crate::domain::Domain;
use crate::narrow::{is_empty, narrow};
use crate::place::Place;
use sm_flat::Literal;

/// The domain of a variable.
pub(crate) fn domain_at<'a>(places: &[Place], block: &'a [u64], var: u32) -> Domain<'a>
    requires known { var < length places.now }
    requires parts { AreParts places.now block.now }
    ensures { result ≡ extent_at (extents places.now block.now) var }
{
    let place = places[var as usize];
    Domain::new(&place, &block[place.start..place.end])
}

/// Keeps of the literal's variable what the literal leaves, and says whether that is another domain. `empty` then says whether
/// some variable has no value.
pub(crate) fn narrow_at(
    places: &[Place],
    block: &mut [u64],
    empty: &mut bool,
    literal: &Literal,
) -> bool
    requires known { literal.now.var < length places.now }
    requires block { IsBlock places.now block.old empty.old }
    ensures block { IsBlock places.now block.new empty.new }
    ensures narrowed { extents places.now block.new ≡ narrow (extents places.now block.old) literal.now }
    ensures changed { IsTrue result ↔ Changes (extents places.now block.old) literal.now }
    ensures len { length block.new ≡ length block.old }
{
    let place = places[literal.var as usize];
    let part = &mut block[place.start..place.end];
    let changes = narrow(literal, &place, part);
    if is_empty(&place, part) {
        *empty = true;
    }
    changes
}
