//! The flat model of a text with its tables, or the first refusal in the order of the text.
#![tactic(auto)]

ghost use Rattle.std.specs.Prelude.{◌≡◌, ◌↔◌, ℕ, List, map, Result};
ghost use Rattle.sm_flat.specs.Forms.{kind_of};
ghost use Rattle.sm_flat.specs.Goals.{worth};
ghost use Rattle.sm_flat.specs.Models.{FlatModel};
ghost use Rattle.sm_flat.specs.Solutions.{Solves, HasNoSolution};
ghost use Rattle.sm_data.specs.Documents.{Entry};
ghost use Rattle.sm_syntax.specs.Trees.{Tree};
ghost use Rattle.sm_forms.specs.Meanings.{Values};
ghost use Rattle.sm_meaning.specs.Demands.{point_of};
ghost use Rattle.sm_meaning.specs.Models.{Means, worths_of, listing_of};
ghost use Rattle.sm_expand.specs.Expanding.{IsFlatOf};

mod expanding;
mod items;
mod subproblems;

pub use expanding::expand;

/// Laws of expansions: values solve the flat model exactly where the text means them, and none do exactly where it means
/// none. Each goal is worth what the text's is. The variables, the kinds and tags of the constraints and the senses are
/// those that the text lists.
pub fn expansion_laws()
    ensures means { (t : Tree) (tables : List Entry) (m : FlatModel) → IsFlatOf t tables m →
        (a : Values) → Solves m (point_of a) ↔ Means t tables a }
    ensures unsolved { (t : Tree) (tables : List Entry) (m : FlatModel) → IsFlatOf t tables m →
        HasNoSolution m ↔ ((a : Values) → Means t tables a → ⊥) }
    ensures worths { (t : Tree) (tables : List Entry) (m : FlatModel) → IsFlatOf t tables m →
        (a : Values) → map (λ goal. worth goal (point_of a)) m.goals ≡ map (λ g. g a) (worths_of t tables) }
    ensures variables { (t : Tree) (tables : List Entry) (m : FlatModel) → IsFlatOf t tables m →
        m.vars ≡ (listing_of t tables).variables }
    ensures kinds { (t : Tree) (tables : List Entry) (m : FlatModel) → IsFlatOf t tables m →
        map (λ c. kind_of c.form) m.constraints ≡ (listing_of t tables).kinds }
    ensures tags { (t : Tree) (tables : List Entry) (m : FlatModel) → IsFlatOf t tables m →
        map (λ c. c.tags) m.constraints ≡ (listing_of t tables).tags }
{}
