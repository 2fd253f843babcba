//! Logic: clauses, each with a true literal.
ghost use Rattle.std.specs.Prelude.{◌≡◌, ◌≤◌, ◌+◌, ◌↔◌, IsTrue, IsSome, IfSome, true, All};
ghost use Rattle.sm_kinds.specs.declared.literal.Literal.{Literal as Written};
ghost use Rattle.sm_kinds.specs.Logic.{IsClause, IsLogic, logic_size, EachLiteralVar, EachLogicVar, has_true, satisfies_each, SatLogic};

use crate::limits::{GREATEST_CLAUSE_BOUND, MOST_CLAUSES, left_after};
use crate::literal::{Literal, is_literal, is_true};
use crate::values::{Values, VarTest};
use crate::var::Var;
use sqlite_items::Items;

/// A list of literals, at least one of which is to be true. A clause without literals never holds.
#[derive(Debug, Drop)]
pub struct Clause {
    pub literals: Items<Literal>,
}

fn is_clause(vars: &[Var], clause: &Clause) -> bool
    ensures { IsTrue result ↔ IsClause vars.now clause.now }
{
    let literals = clause.literals.as_slice();
    literals
        .iter()
        .all(|l| is_literal(vars, GREATEST_CLAUSE_BOUND, l))
}

/// Whether the clauses are within the limits, and fit these variables.
pub fn fits(vars: &[Var], clauses: &[Clause]) -> bool
    ensures { IsTrue result ↔ IsLogic vars.now clauses.now }
{
    clauses.len() as u64 <= MOST_CLAUSES && clauses.iter().all(|c| is_clause(vars, c))
}

/// What is left of a count without the size of the clauses.
pub fn spend(clauses: &[Clause], left: u64) -> Option<u64>
    ensures variant { IsSome result ↔ (logic_size clauses.now ≤ left) }
    ensures value { IfSome result (λ r. r + logic_size clauses.now ≡ left) }
{
    let mut rest = left;
    for clause in clauses {
        rest = left_after(rest, clause.literals.len())?;
    }
    Some(rest)
}

/// Whether the variable of each literal passes the test.
pub(crate) fn every_literal<T: VarTest>(literals: &[Literal], test: &T) -> bool
    ensures { IsTrue result ↔ EachLiteralVar (λ v. T.passing test.now v ≡ true) literals.now }
{
    literals.iter().all(|l| test.test(l.var))
}

/// Whether each variable of the clauses passes the test.
pub fn every_var<T: VarTest>(clauses: &[Clause], test: &T) -> bool
    ensures { IsTrue result ↔ EachLogicVar (λ v. T.passing test.now v ≡ true) clauses.now }
{
    clauses
        .iter()
        .all(|c| every_literal(c.literals.as_slice(), test))
}

/// Whether some literal of the clause is true.
fn has_true<V: Values>(clause: &Clause, a: &V) -> bool
    ensures { result ≡ has_true (V.point a.now) clause.now.literals }
{
    clause.literals.as_slice().iter().any(|l| is_true(l, a))
}

fn satisfies_each<V: Values>(clauses: &[Clause], a: &V) -> bool
    ensures { result ≡ satisfies_each (V.point a.now) clauses.now }
{
    clauses.iter().all(|c| has_true(c, a))
}

/// Whether each clause has a true literal.
pub fn holds<V: Values>(clauses: &[Clause], a: &V) -> bool
    ensures { IsTrue result ↔ SatLogic clauses.now (V.point a.now) }
{
    satisfies_each(clauses, a)
}
