//! Formulas.
use sm_flat::Literal;
use sqlite_items::{Boxed, Items};

/// A formula over literals. `And` over nothing holds, `Or` over nothing doesn't.
#[derive(Drop)]
pub enum Formula {
    Lit(Literal),
    Not(Boxed<Formula>),
    And(Items<Formula>),
    Or(Items<Formula>),
    /// The first isn't true, or the second is.
    Implies(Boxed<Formula>, Boxed<Formula>),
    /// Each implies the other.
    Iff(Boxed<Formula>, Boxed<Formula>),
}
