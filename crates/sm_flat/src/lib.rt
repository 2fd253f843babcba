//! Flat models: variables with declared domains, constraints and goals, the assignments of values to the
//! variables, and what it means that an assignment solves a model and that a solution is an optimum.
#![tactic(auto)]

mod assignment;
mod flat;
mod form;
mod goal;
mod limits;
mod solve;
mod subproblem;
mod tags;

pub use assignment::{Assignment, is_assignment};
pub use flat::Flat;
pub use form::{Constraint, Form, Kind, kind_of, spend};
pub use goal::{Goal, Sense, value};
pub use sm_kinds::{
    Choice, Clause, Cmp, Entry, Item, LinRow, Literal, Packing, Task, Test, Values, Var, VarKind,
    VarTest,
};
pub use solve::{every_var, fits, holds, solves};
pub use subproblem::sub_of;
pub use tags::{Level, PickBy, SplitBy, Tags};
