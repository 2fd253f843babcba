//! The words of the model language: the bytes that they are made of, those that are reserved, and those that are names.
#![tactic(auto)]

mod letters;
mod names;

pub use letters::{is_digit, is_in_word, is_letter};
pub use names::{LONGEST_NAME, is_name, is_reserved, is_word, name_text};
