//! Variables, and the kinds of constraints over them. Each kind has a file of its name here and one in the definitions: its
//! data, its limits and how its parts fit, its size, its variables, and when it holds.
#![tactic(auto)]

pub mod alldiff;
pub mod assign;
mod choice;
pub mod circuit;
pub mod cumulative;
pub mod disjunctive;
pub mod element;
pub mod indexsum;
mod limits;
pub mod linear;
mod literal;
pub mod logic;
pub mod packing;
mod sums;
mod tasks;
mod values;
mod var;
pub mod when;

pub use choice::Choice;
pub use element::Entry;
pub use limits::{
    GREATEST_BRANCH, GREATEST_CLAUSE_BOUND, GREATEST_NUMBER, GREATEST_SUB, MOST_CAPACITY,
    MOST_CLAUSES, MOST_CONSTRAINTS, MOST_GOAL_TERMS, MOST_GOALS, MOST_GROUPS, MOST_HORIZON,
    MOST_ITEMS, MOST_MEMBERS, MOST_REAL_ROWS, MOST_REALS, MOST_TASKS, MOST_TERMS, MOST_TOTAL,
    MOST_VARIABLES, MOST_WIDTH, MOST_WIDTHS, are_small, is_small, left_after,
};
pub use linear::{Cmp, LinRow};
pub use literal::{Literal, Test, is_true};
pub use logic::Clause;
pub use packing::{Item, Packing};
pub use sums::{is_sum, sum_at};
pub use tasks::Task;
pub use values::{Values, VarTest, scaled};
pub use var::{Var, VarKind, is_discrete, is_domain, is_real, is_real_kind, is_set, set_width};
