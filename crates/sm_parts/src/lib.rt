//! Parts of constraints: an expression in the role in which it stands, literals, and what stands once or at each tuple
//! that passes the tests of binders.
#![tactic(auto)]

mod list;
mod literal;
mod part;
mod role;
mod tuples;

pub use list::listed;
pub use literal::{condition, conditions, presence};
pub use part::{Part, push_all, push_node};
pub use role::{Amounts, Entries, Numbers, Role, SetVariables, amount, discrete, set_variable};
pub use tuples::Tuples;
