//! Members of tables, and costs.
ghost use Rattle.std.specs.Prelude.{◌≡◌, ℕ, ℤ, List};
ghost use Rattle.sm_kinds.specs.declared.element.Entry.{Entry as Member};
ghost use Rattle.sm_kinds.specs.declared.packing.Item.{Item as Packed};
ghost use Rattle.sm_meaning.specs.Trials.{each_tried};
ghost use Rattle.sm_meaning.specs.Limits.{entry_numbers, kind_entries};
ghost use Rattle.sm_drafts.specs.Drafts.{Passes, entries_tried};

use crate::numbers::{try_numbers, try_small};
use sm_data::Counted;
use sm_flat::{Entry, Form, Item};
use sm_kinds::GREATEST_NUMBER;
use sm_meaning::ExpandRefusal;
use sqlite_items::Items;

fn try_members(numbers: &[i64]) -> Result<(), ExpandRefusal>
    ensures { Passes (entries_tried numbers.now) result }
{
    try_numbers(Counted::Entry, GREATEST_NUMBER, numbers)
}

fn try_entry(entry: &Entry) -> Result<(), ExpandRefusal>
    ensures { Passes (entries_tried (entry_numbers entry.now)) result }
{
    match entry {
        Entry::Number(number) => try_small(Counted::Entry, GREATEST_NUMBER, number),
        Entry::Variable(_) => Ok(()),
    }
}

fn try_entries(entries: &[Entry]) -> Result<(), ExpandRefusal>
    ensures { Passes (each_tried (λ (e : Member). entries_tried (entry_numbers e)) entries.now) result }
{
    for entry in entries {
        try_entry(entry)?;
    }
    Ok(())
}

fn try_tables(picks: &[(u32, Items<i64>)]) -> Result<(), ExpandRefusal>
    ensures { Passes (each_tried (λ (p : ℕ × List ℤ). entries_tried p.1) picks.now) result }
{
    for pick in picks {
        try_members(pick.1.as_slice())?;
    }
    Ok(())
}

fn try_costs(items: &[Item]) -> Result<(), ExpandRefusal>
    ensures { Passes (each_tried (λ (i : Packed). entries_tried i.costs) items.now) result }
{
    for item in items {
        try_members(item.costs.as_slice())?;
    }
    Ok(())
}

/// Tries the members of tables and the costs of a kind.
///
/// # Errors
///
/// `Limit` of the first that is over its limit.
pub(crate) fn try_kind_entries(form: &Form) -> Result<(), ExpandRefusal>
    ensures { Passes (entries_tried (kind_entries form.now)) result }
{
    match form {
        Form::Element { entries, .. } => try_entries(entries.as_slice()),
        Form::IndexSum(choice) => try_tables(choice.picks.as_slice()),
        Form::Assign(choice) => try_tables(choice.picks.as_slice()),
        Form::Packing(packing) => {
            try_members(packing.opening.as_slice())?;
            try_costs(packing.items.as_slice())
        }
        _ => Ok(()),
    }
}
