//! The texts that the program tells besides logs: what is wrong, a solution by the names of its variables, and what a
//! check says of a log.
#![tactic(auto)]

mod brief;
mod check;
mod error;
mod path;
mod word;

pub use brief::brief_text;
pub use check::{accepted_line, refused_line};
pub use error::{ErrorLine, error_line, memory_line, read_line, usage_line};
