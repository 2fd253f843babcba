//! Tables of cases, as test programs read them.
//!
//! A table is a text of entries. An entry is a line with a key, and behind a space its value; the lines below it that begin
//! with two spaces are its text:
//!
//! - `  | ` and a line of the text. Lines are joined by line feeds, so a text ends with one where its last line is empty.
//! - `  x ` and bytes, each as two hexadecimal digits.
//! - `  * `, a count, a space and bytes in that form, which stand so many times.
//!
//! Empty lines are passed over. So a table holds any bytes, and a case more costs no proof. What the cases answered has the
//! form of a table again ([`Answers`]).
#![tactic(auto)]

mod answers;
mod entries;

pub use answers::Answers;
pub use entries::{Entry, entries_of};
