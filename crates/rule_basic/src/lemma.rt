//! Lemma: a clause that was shown before.
//!
//! Where all its literals are false, the node has no solution; where all but one are, that one holds.
ghost use Rattle.std.specs.Prelude.{◌≡◌, ◌<◌, ◌↔◌, All, IsTrue, length};
ghost use Rattle.sm_kinds.specs.declared.literal.Literal.{Literal as Stated};
ghost use Rattle.sm_rows.specs.Inferences.{IsLawfulLemma};

use crate::clause::{all_false, is_last_of};
use sm_flat::Clause;
use sm_step::{Line, Outcome};
use sm_store::Store;

/// Whether the line, which uses a lemma of this clause, is lawful at a node of this store.
pub fn valid_lemma(store: &Store, clause: &Clause, line: &Line) -> bool
    requires { All (λ (l : Stated). l.var < length store.now) clause.now.literals }
    ensures { IsTrue result ↔ IsLawfulLemma store.now clause.now.literals line.now }
{
    let Line::Lemma { result, .. } = line else {
        return false;
    };
    let literals = clause.literals.as_slice();
    match result {
        Outcome::Close => all_false(store, literals),
        Outcome::Literals(found) => match found.as_slice() {
            [last] => store.tightens(last) && is_last_of(store, literals, last),
            _ => false,
        },
    }
}
