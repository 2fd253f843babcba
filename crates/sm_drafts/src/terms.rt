//! Terms, picks, listed variables and members of tables.
ghost use Rattle.std.specs.Prelude.{◌≡◌, ℕ, ℤ, List, length};
ghost use Rattle.sm_kinds.specs.Limits.{most_members};
ghost use Rattle.sm_data.specs.declared.refusal.Counted.TheVariants as counted;
ghost use Rattle.sm_meaning.specs.Trials.{each_tried};
ghost use Rattle.sm_meaning.specs.Limits.{count_tried, tables_tried, kind_terms_tried};
ghost use Rattle.sm_drafts.specs.Drafts.{Passes, choice_terms_tried};

use crate::numbers::try_count;
use sm_data::Counted;
use sm_flat::{Choice, Form};
use sm_kinds::{MOST_MEMBERS, MOST_TERMS};
use sm_meaning::ExpandRefusal;
use sqlite_items::Items;

fn try_tables(picks: &[(u32, Items<i64>)]) -> Result<(), ExpandRefusal>
    ensures { Passes (tables_tried picks.now) result }
{
    for pick in picks {
        try_count(Counted::Terms, MOST_MEMBERS, pick.1.len())?;
    }
    Ok(())
}

fn try_choice(choice: &Choice) -> Result<(), ExpandRefusal>
    ensures { Passes (choice_terms_tried choice.now) result }
{
    try_count(Counted::Terms, MOST_TERMS, choice.picks.len())?;
    try_tables(choice.picks.as_slice())
}

/// Tries how many variables and members of tables a kind has.
///
/// # Errors
///
/// `Limit` of the first that is over its limit.
pub(crate) fn try_kind_terms(form: &Form) -> Result<(), ExpandRefusal>
    ensures { Passes (kind_terms_tried form.now) result }
{
    match form {
        Form::Alldiff(positions) => try_count(Counted::Terms, MOST_TERMS, positions.len()),
        Form::Circuit(successors) => try_count(Counted::Terms, MOST_TERMS, successors.len()),
        Form::Element { entries, .. } => try_count(Counted::Terms, MOST_MEMBERS, entries.len()),
        Form::IndexSum(choice) => try_choice(choice),
        Form::Assign(choice) => try_choice(choice),
        _ => Ok(()),
    }
}
