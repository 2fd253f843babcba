//! Constraints in the making.
use sm_flat::{Cmp, Literal};
use sqlite_items::Items;

/// A constraint before it is known to be within the limits.
#[derive(Drop)]
pub enum Draft {
    /// The form compares with 0.
    Row {
        cmp: Cmp,
        form: sm_forms::Form,
    },
    /// The formula holds.
    Formula(sm_clausify::Formula),
    /// Some literal is false, or the form compares with 0.
    RowWhen {
        literals: Items<Literal>,
        cmp: Cmp,
        form: sm_forms::Form,
    },
    /// A kind whose parts are variables and whole numbers.
    Kind(sm_flat::Form),
}
