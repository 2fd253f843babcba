//! Sums in which each column stands once.
ghost use Rattle.std.specs.Prelude.{◌≡◌, ◌+◌, ◌<◌, ◌^◌, [], ◌∷◌, ◌++◌, ℤ, ◌+ℤ◌, length, slice_set, slice_index_or, unsigned_abs, pos, ⊤, IfOk, MatchOption};
ghost use Rattle.sm_step.specs.declared.row.Col.TheVariants.{Var};
ghost use Rattle.sm_rows.specs.Terms.{same_column, add_term, is_nonzero, weight};

use sm_step::Col;
use sqlite_items::Items;
use std::alloc::AllocError;

/// Whether they are one column.
pub fn same_column(left: Col, right: Col) -> bool
    ensures { result ≡ same_column left right }
{
    match (left, right) {
        (Col::Var(i), Col::Var(j)) => i == j,
        (Col::Is(i, v), Col::Is(j, w)) => i == j && v == w,
        _ => false,
    }
}

pub(crate) fn is_nonzero(term: &(Col, i64)) -> bool
    ensures { result ≡ is_nonzero term.now }
{
    term.1 != 0
}

/// The place of the column in the sum, where it stands there.
fn place_of(terms: &[(Col, i64)], column: Col) -> Option<usize>
    ensures within { MatchOption result ⊤ (λ i. i < length terms.now) }
    ensures added { (k : ℤ) → MatchOption result (add_term terms.now column k ≡ terms.now ++ (column, k) ∷ []) (λ i. add_term terms.now column k ≡ slice_set terms.now i ((slice_index_or terms.now i (Var 0, pos 0)).0, (slice_index_or terms.now i (Var 0, pos 0)).1 +ℤ k)) }
{
    for i in 0..terms.len() {
        if same_column(terms[i].0, column) {
            return Some(i);
        }
    }
    None
}

/// Two terms of one column as one.
fn plus(known: &(Col, i64), term: &(Col, i64)) -> (Col, i64)
    requires { unsigned_abs known.now.1 + unsigned_abs term.now.1 < 2 ^ 63 }
    ensures { result ≡ (known.now.0, known.now.1 +ℤ term.now.1) }
{
    (known.0, known.1 + term.1)
}

/// Adds the term to the sum.
pub fn add_term(terms: &mut Items<(Col, i64)>, term: &(Col, i64)) -> Result<(), AllocError>
    requires { weight terms.old + unsigned_abs term.now.1 < 2 ^ 63 }
    ensures { IfOk result (λ _. terms.new ≡ add_term terms.old term.now.0 term.now.1) }
{
    match place_of(terms.as_slice(), term.0) {
        Some(i) => {
            let sum = plus(&terms.as_slice()[i], term);
            terms.set(i, sum);
            Ok(())
        }
        None => terms.push(*term),
    }
}
