//! The words of a command line, and what they ask the program for.
#![tactic(auto)]

mod command;
mod reading;
mod refusal;
mod requests;

pub use reading::request;
pub use refusal::RequestRefusal;
pub use requests::Request;
