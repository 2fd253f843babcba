//! The lines of a proof log: their types, and the one text of each.
#![tactic(auto)]

mod blank;
mod cursor;
mod fraction;
mod line;
mod line_text;
mod lists;
mod literal;
mod part;
mod pattern_text;
mod range;
mod reading;
mod refusal;
mod row;
mod row_range;
mod row_text;
mod rule;
mod rule_text;
mod short;
mod text;
mod verdict;
mod verdict_text;

pub use fraction::push_fraction;
pub use line::{Line, Listed, NorangeOf, Outcome, Pattern};
pub use reading::{is_too_long, one_line, read};
pub use refusal::LineRefusal;
pub use row::{Col, RowRef, Term};
pub use rule::Rule;
pub use short::Short;
pub use text::print;
pub use verdict::Verdict;
pub use verdict_text::push_verdict;
