//! Constraints in the making, and the tests of the limits of one more constraint.
//!
//! A test answers for one part of what is tried of a constraint: the first refusal there, or that there is none. It
//! visits no tuple, so that the count of tuples stays as it is.
#![tactic(auto)]

ghost use Rattle.std.specs.Prelude.{ℕ, List};
ghost use Rattle.sm_data.specs.Documents.{Entry};
ghost use Rattle.sm_meaning.specs.Scopes.{Thing};
ghost use Rattle.sm_meaning.specs.Declarations.{with_variables};
ghost use Rattle.sm_meaning.specs.Expansions.{Declared, Expansion, vars_of, beginning, with_name};
ghost use Rattle.sm_flattening.specs.Regularity.{AreRegular};
ghost use Rattle.sm_drafts.specs.declared.adding.Totals.{Totals as Sums};
ghost use Rattle.sm_drafts.specs.Sums.{AreTotals};

mod adding;
mod bounds;
mod draft;
mod entries;
mod flat;
mod front;
mod groups;
mod literals;
mod numbers;
mod reals;
mod tags;
mod terms;
mod total;

pub use adding::{Added, Totals, constraint};
pub use bounds::try_bound;
pub use draft::Draft;
pub use numbers::{try_coefficients, try_count, try_number};
pub use tags::DraftTags;

/// Laws of totals: they begin with 0, and stay as they are while names and variables come.
pub fn totals_laws()
    ensures begins { (tables : List Entry) → AreTotals (beginning tables) (record { constraints = 0; sizes = 0; real_rows = 0 }) }
    ensures named { (e : Expansion) (t : Sums) (name : List ℕ) (x : Thing) → AreTotals e t → AreTotals (with_name e name x) t }
    ensures declared { (e : Expansion) (t : Sums) (ds : List Declared) → AreRegular (vars_of e) e.posts → AreTotals e t → AreTotals (with_variables e ds) t }
{}
