//! What lines of a log may show of a store. Columns and rows of linear relaxations: what a row says of an assignment, the boxes of
//! columns, linked variables, and column forms of literals. And what each rule of inference may conclude, over halves of rows.
#![tactic(auto)]

mod boxes;
mod form;
mod half;
mod linked;
mod row;
mod terms;

pub use boxes::box_of;
pub use form::{ColumnForm, add_form, column_form};
pub use half::Half;
pub use linked::{MOST_LINKED, is_linked};
pub use row::{Row, row_of};
pub use terms::{add_term, same_column};
