//! The state of a proof log: which lines it allows, what each makes of it, and what every allowed line keeps.
#![tactic(auto)]

mod cause;
mod last_line;
mod laws;
mod log_state;
mod node;
mod objectives;
mod path;
mod tree;
mod violation;

pub use cause::Cause;
pub use last_line::LastLine;
pub use log_state::{ApplyRefusal, LogState};
pub use node::Status;
