//! Clause: the last literal of a clause that may be true.
//!
//! Where all literals of a clause are false, the node has no solution; where all but one are, that one holds: unit propagation
//! (Davis and Putnam, 1960).
ghost use Rattle.std.specs.Prelude.{◌≡◌, ◌<◌, ◌↔◌, ◌⊎◌, IsTrue, All, length};
ghost use Rattle.sm_kinds.specs.declared.literal.Literal.{Literal as Stated};
ghost use Rattle.sm_rows.specs.Inferences.{IsFalseIn, AllFalse, IsLastOf, ClauseCloses, ClauseInfers};
ghost use Rattle.sm_rows.specs.Whole.{IsFormIn};

use sm_flat::{Form, Literal};
use sm_store::Store;

/// Whether the literal is false of all values that its variable may have.
fn is_false(store: &Store, literal: &Literal) -> bool
    requires { literal.now.var < length store.now }
    ensures { IsTrue result ↔ IsFalseIn store.now literal.now }
{
    store.truth(literal) == Some(false)
}

/// Whether all literals are false.
pub(crate) fn all_false(store: &Store, literals: &[Literal]) -> bool
    requires { All (λ (l : Stated). l.var < length store.now) literals.now }
    ensures { IsTrue result ↔ AllFalse store.now literals.now }
{
    literals.iter().all(|l| is_false(store, l))
}

/// Whether a literal is the one that is named, or false.
fn is_spent(store: &Store, literal: &Literal, last: &Literal) -> bool
    requires { literal.now.var < length store.now }
    ensures { IsTrue result ↔ ((literal.now ≡ last.now) ⊎ IsFalseIn store.now literal.now) }
{
    literal == last || is_false(store, literal)
}

/// Whether the literal is one of these, and each other one is false.
pub(crate) fn is_last_of(store: &Store, literals: &[Literal], last: &Literal) -> bool
    requires { All (λ (l : Stated). l.var < length store.now) literals.now }
    ensures { IsTrue result ↔ IsLastOf store.now last.now literals.now }
{
    literals.contains(last) && literals.iter().all(|l| is_spent(store, l, last))
}

/// Whether all literals of the clause of this number are false.
#[tactic(auto, using(sm_rows::proofs::Fitting::known_clause))]
pub(crate) fn clause_closes(store: &Store, form: &Form, clause: u32) -> bool
    requires { IsFormIn store.now form.now }
    ensures { IsTrue result ↔ ClauseCloses store.now clause form.now }
{
    let Form::Logic(clauses) = form else {
        return false;
    };
    match clauses.as_slice().get(clause as usize) {
        Some(clause) => all_false(store, clause.literals.as_slice()),
        None => false,
    }
}

/// Whether the literal is the last of the clause of this number that may be true.
#[tactic(auto, using(sm_rows::proofs::Fitting::known_clause))]
pub(crate) fn clause_infers(store: &Store, form: &Form, clause: u32, literal: &Literal) -> bool
    requires { IsFormIn store.now form.now }
    ensures { IsTrue result ↔ ClauseInfers store.now clause literal.now form.now }
{
    let Form::Logic(clauses) = form else {
        return false;
    };
    match clauses.as_slice().get(clause as usize) {
        Some(clause) => is_last_of(store, clause.literals.as_slice(), literal),
        None => false,
    }
}
