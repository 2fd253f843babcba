//! Printing constraints.
use crate::print_expression::{print_expr, print_lit};
use crate::print_formula::print_formula;
use crate::print_list::{
    print_choice, print_ctask, print_dtask, print_list, print_load, print_table,
};
use crate::print_token::{Output, put};
use sm_syntax::{Choice, Choosing, Cmp, Cons, Ctask, Dtask, Expr, List, Lit, Load};

fn print_row(out: &mut Output, left: &Expr, cmp: &Cmp, right: &Expr) {
    print_expr(out, left);
    match cmp {
        Cmp::AtMost { .. } => put(out, b"<="),
        Cmp::AtLeast { .. } => put(out, b">="),
        Cmp::Equal { .. } => put(out, b"="),
    }
    print_expr(out, right);
}

fn print_lits(out: &mut Output, first: &Lit, more: &[Lit]) {
    print_lit(out, first);
    for lit in more {
        put(out, b",");
        print_lit(out, lit);
    }
}

fn print_choices(out: &mut Output, total: &Expr, choices: &[Choice]) {
    print_expr(out, total);
    for choice in choices {
        put(out, b";");
        print_choice(out, choice);
    }
}

fn print_cumulative(out: &mut Output, capacity: &Expr, tasks: &[Ctask]) {
    print_expr(out, capacity);
    for task in tasks {
        put(out, b";");
        print_ctask(out, task);
    }
}

fn print_disjunctive(out: &mut Output, first: &Dtask, more: &[Dtask]) {
    print_dtask(out, first);
    for task in more {
        put(out, b";");
        print_dtask(out, task);
    }
}

fn print_packing(out: &mut Output, cost: &Expr, tables: [&List; 2], loads: &[Load]) {
    print_expr(out, cost);
    for table in tables {
        put(out, b";");
        print_table(out, table);
    }
    for load in loads {
        put(out, b";");
        print_load(out, load);
    }
}

fn print_element(out: &mut Output, index: &Expr, entries: &List, value: &Expr) {
    print_expr(out, index);
    put(out, b",");
    print_table(out, entries);
    put(out, b",");
    print_expr(out, value);
}

fn constraint_word(cons: &Cons) -> &'static [u8] {
    match cons {
        Cons::Alldiff { .. } => b"alldiff",
        Cons::Circuit { .. } => b"circuit",
        Cons::Element { .. } => b"element",
        Cons::Choices {
            choosing: Choosing::Indexsum,
            ..
        } => b"indexsum",
        Cons::Choices {
            choosing: Choosing::Assign,
            ..
        } => b"assign",
        Cons::Cumulative { .. } => b"cumulative",
        Cons::Disjunctive { .. } => b"disjunctive",
        Cons::Packing { .. } => b"packing",
        _ => b"",
    }
}

fn print_inner(out: &mut Output, cons: &Cons) {
    match cons {
        Cons::Alldiff { list, .. } | Cons::Circuit { list, .. } => print_list(out, list),
        Cons::Element {
            index,
            entries,
            value,
            ..
        } => print_element(out, index, entries, value),
        Cons::Choices { total, choices, .. } => print_choices(out, total, choices.as_slice()),
        Cons::Cumulative {
            capacity,
            tasks,
            ..
        } => print_cumulative(out, capacity, tasks.as_slice()),
        Cons::Disjunctive { first, more, .. } => print_disjunctive(out, first, more.as_slice()),
        Cons::Packing {
            cost,
            capacities,
            openings,
            loads,
            ..
        } => print_packing(out, cost, [capacities, openings], loads.as_slice()),
        _ => {}
    }
}

pub fn print_cons(out: &mut Output, cons: &Cons) {
    match cons {
        Cons::Linear {
            left,
            cmp,
            right,
            ..
        } => print_row(out, left, cmp, right),
        Cons::Logic { formula, .. } => {
            put(out, b"logic");
            print_formula(out, formula);
        }
        Cons::When {
            first,
            more,
            left,
            cmp,
            right,
            ..
        } => {
            put(out, b"when");
            print_lits(out, first, more.as_slice());
            put(out, b"then");
            print_row(out, left, cmp, right);
        }
        _ => {
            put(out, constraint_word(cons));
            put(out, b"(");
            print_inner(out, cons);
            put(out, b")");
        }
    }
}
