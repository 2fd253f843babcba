//! The checker: whether the bytes of a log prove the verdict that they end in.
#![tactic(auto)]

mod checking;
mod feed;
mod refusal;

pub use checking::{check, one_outcome};
pub use refusal::CheckRefusal;
