//! Printing lists, and the parts of constraints that stand in lists.
use crate::print_expression::{print_binders, print_expr, print_lit};
use crate::print_token::{Output, put};
use sm_syntax::{Binders, Choice, Ctask, Dtask, Expr, List, Lit, Load};

fn print_for_each(out: &mut Output, binders: &Option<Binders>) {
    match binders {
        Some(binders) => {
            put(out, b"for");
            print_binders(out, binders);
        }
        None => {}
    }
}

fn print_presence(out: &mut Output, presence: &Option<Lit>) {
    match presence {
        Some(lit) => {
            put(out, b"when");
            print_lit(out, lit);
        }
        None => {}
    }
}

pub fn print_exprs(out: &mut Output, first: &Expr, more: &[Expr]) {
    print_expr(out, first);
    for expr in more {
        put(out, b",");
        print_expr(out, expr);
    }
}

pub fn print_list(out: &mut Output, list: &List) {
    print_exprs(out, &list.first, list.more.as_slice());
    print_for_each(out, &list.binders);
}

pub fn print_table(out: &mut Output, list: &List) {
    put(out, b"[");
    print_list(out, list);
    put(out, b"]");
}

pub fn print_choice(out: &mut Output, choice: &Choice) {
    print_expr(out, &choice.picks);
    put(out, b":");
    print_table(out, &choice.table);
    print_for_each(out, &choice.binders);
}

pub fn print_ctask(out: &mut Output, task: &Ctask) {
    print_expr(out, &task.start);
    put(out, b",");
    print_expr(out, &task.duration);
    put(out, b",");
    print_expr(out, &task.demand);
    print_presence(out, &task.presence);
    print_for_each(out, &task.binders);
}

pub fn print_dtask(out: &mut Output, task: &Dtask) {
    print_expr(out, &task.start);
    put(out, b",");
    print_expr(out, &task.duration);
    print_presence(out, &task.presence);
    print_for_each(out, &task.binders);
}

pub fn print_load(out: &mut Output, load: &Load) {
    print_expr(out, &load.group);
    put(out, b",");
    print_expr(out, &load.size);
    put(out, b",");
    print_table(out, &load.costs);
    print_for_each(out, &load.binders);
}
