//! Printing formulas.
use crate::print_expression::{print_binders, print_lit};
use crate::print_token::{Output, put};
use sm_syntax::{Atom, Conclusion, Conj, Disj, Formula, Quantifier, Unit};

#[cycle(stated)]
pub fn print_formula(out: &mut Output, formula: &Formula) {
    print_disj(out, &formula.left);
    match &formula.conclusion {
        Conclusion::None => {}
        Conclusion::Implies(disj) => {
            put(out, b"implies");
            print_disj(out, disj);
        }
        Conclusion::Iff(disj) => {
            put(out, b"iff");
            print_disj(out, disj);
        }
    }
}

#[cycle(stated)]
fn print_disj(out: &mut Output, disj: &Disj) {
    print_conj(out, &disj.first);
    for conj in disj.more.as_slice() {
        put(out, b"or");
        print_conj(out, conj);
    }
}

#[cycle(stated)]
fn print_conj(out: &mut Output, conj: &Conj) {
    print_unit(out, &conj.first);
    for unit in conj.more.as_slice() {
        put(out, b"and");
        print_unit(out, unit);
    }
}

#[cycle(stated)]
fn print_unit(out: &mut Output, unit: &Unit) {
    for _negation in unit.negations.as_slice() {
        put(out, b"not");
    }
    print_atom(out, &unit.inner);
}

#[cycle(stated)]
fn print_atom(out: &mut Output, atom: &Atom) {
    match atom {
        Atom::Lit { lit, .. } => print_lit(out, lit),
        Atom::Group { inner, .. } => {
            put(out, b"(");
            print_formula(out, inner.get());
            put(out, b")");
        }
        Atom::Quantified {
            quantifier,
            inner,
            binders,
            ..
        } => {
            match quantifier {
                Quantifier::All => put(out, b"all"),
                Quantifier::Any => put(out, b"any"),
            }
            put(out, b"(");
            print_formula(out, inner.get());
            put(out, b"for");
            print_binders(out, binders);
            put(out, b")");
        }
    }
}
