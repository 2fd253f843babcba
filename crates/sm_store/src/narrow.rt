//! How a literal narrows the part of one variable.
ghost use Rattle.std.specs.Prelude.{◌≡◌, ◌≢◌, ◌↔◌, [], length, IsTrue};
ghost use Rattle.sm_kinds.specs.declared.var.VarKind.TheVariants.{Int as Ranged};
ghost use Rattle.sm_store.specs.Stores.{kept};
ghost use Rattle.sm_store.specs.Blocks.{values_in, IsPart};

use crate::domain::Domain;
use crate::place::Place;
use crate::summary::{summary_in, write_cells};
use crate::{range, set};
use sm_flat::{Literal, VarKind};

/// Makes the ends those of what the literal leaves of the range.
fn narrow_range(literal: &Literal, base: &i64, part: &mut [u64])
    requires { IsPart Ranged base.now part.old }
    ensures part { IsPart Ranged base.now part.new }
    ensures values { values_in Ranged base.now part.new ≡ kept Ranged literal.now (values_in Ranged base.now part.old) }
    ensures len { length part.new ≡ length part.old }
{
    let summary = summary_in(part);
    let kept = range::kept(literal, summary.least, summary.greatest);
    write_cells(part, &kept);
}

/// Keeps the numbers of which the literal is true, as the kind reads them.
fn keep(literal: &Literal, place: &Place, part: &mut [u64])
    requires { IsPart place.now.kind place.now.base part.old }
    ensures part { IsPart place.now.kind place.now.base part.new }
    ensures values { values_in place.now.kind place.now.base part.new ≡ kept place.now.kind literal.now (values_in place.now.kind place.now.base part.old) }
    ensures len { length part.new ≡ length part.old }
{
    match place.kind {
        VarKind::Set => set::narrow(literal, &place.base, part),
        VarKind::Int => narrow_range(literal, &place.base, part),
        VarKind::Real => {}
    }
}

/// Keeps the numbers of which the literal is true, and says whether there were others.
#[tactic(auto, using(crate::proofs::Cells::not_other))]
pub(crate) fn narrow(literal: &Literal, place: &Place, part: &mut [u64]) -> bool
    requires { IsPart place.now.kind place.now.base part.old }
    ensures part { IsPart place.now.kind place.now.base part.new }
    ensures values { values_in place.now.kind place.now.base part.new ≡ kept place.now.kind literal.now (values_in place.now.kind place.now.base part.old) }
    ensures changed { IsTrue result ↔ (kept place.now.kind literal.now (values_in place.now.kind place.now.base part.old) ≢ values_in place.now.kind place.now.base part.old) }
    ensures len { length part.new ≡ length part.old }
{
    let changes = Domain::new(place, part).changes(literal);
    if changes {
        keep(literal, place, part);
    }
    changes
}

/// Whether the part has no value.
pub(crate) fn is_empty(place: &Place, part: &[u64]) -> bool
    requires { IsPart place.now.kind place.now.base part.now }
    ensures { IsTrue result ↔ (values_in place.now.kind place.now.base part.now ≡ []) }
{
    Domain::new(place, part).is_empty()
}
