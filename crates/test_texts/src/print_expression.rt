//! Printing expressions, binders and literals.
use crate::print_token::{Output, print_name, print_number, put};
use sm_syntax::{Bind, Binders, Expr, Factor, Lit, LitRelation, Relation, Sign, Term, Test};

fn relation_word(relation: Relation) -> &'static [u8] {
    match relation {
        Relation::Less => b"<",
        Relation::AtMost => b"<=",
        Relation::Greater => b">",
        Relation::AtLeast => b">=",
        Relation::Equal => b"=",
        Relation::Unequal => b"!=",
    }
}

fn print_bind(out: &mut Output, bind: &Bind) {
    print_name(out, &bind.name);
    put(out, b"in");
    print_name(out, &bind.set);
}

#[cycle(printed)]
pub fn print_expr(out: &mut Output, expr: &Expr) {
    if expr.is_negated {
        put(out, b"-");
    }
    print_term(out, &expr.first);
    for addend in expr.more.as_slice() {
        match addend.sign {
            Sign::Plus => put(out, b"+"),
            Sign::Minus => put(out, b"-"),
        }
        print_term(out, &addend.term);
    }
}

#[cycle(printed)]
fn print_term(out: &mut Output, term: &Term) {
    print_factor(out, &term.first);
    for factor in term.more.as_slice() {
        put(out, b"*");
        print_factor(out, factor);
    }
}

#[cycle(printed)]
fn print_factor(out: &mut Output, factor: &Factor) {
    match factor {
        Factor::Number { number, .. } => print_number(out, number),
        Factor::Name { name, indices, .. } => {
            print_name(out, name);
            print_indices(out, indices.as_slice());
        }
        Factor::Group { inner, .. } => {
            put(out, b"(");
            print_expr(out, inner.get());
            put(out, b")");
        }
        Factor::Sum {
            summand,
            binders,
            ..
        } => {
            put(out, b"sum");
            put(out, b"(");
            print_expr(out, summand.get());
            put(out, b"for");
            print_binders(out, binders.get());
            put(out, b")");
        }
    }
}

#[cycle(printed)]
fn print_indices(out: &mut Output, indices: &[Expr]) {
    let mut sign: &[u8] = b"[";
    for index in indices {
        put(out, sign);
        print_expr(out, index);
        sign = b",";
    }
    if !indices.is_empty() {
        put(out, b"]");
    }
}

#[cycle(printed)]
pub fn print_binders(out: &mut Output, binders: &Binders) {
    print_bind(out, &binders.first);
    for bind in binders.more.as_slice() {
        put(out, b",");
        print_bind(out, bind);
    }
    let mut word: &[u8] = b"if";
    for test in binders.tests.as_slice() {
        put(out, word);
        print_test(out, test);
        word = b"and";
    }
}

#[cycle(printed)]
fn print_test(out: &mut Output, test: &Test) {
    print_expr(out, &test.left);
    put(out, relation_word(test.relation));
    print_expr(out, &test.right);
}

pub fn print_lit(out: &mut Output, lit: &Lit) {
    put(out, b"[");
    print_expr(out, &lit.left);
    match lit.relation {
        LitRelation::AtMost => put(out, b"<="),
        LitRelation::AtLeast => put(out, b">="),
        LitRelation::Equal => put(out, b"="),
        LitRelation::Unequal => put(out, b"!="),
    }
    print_expr(out, &lit.right);
    put(out, b"]");
}
