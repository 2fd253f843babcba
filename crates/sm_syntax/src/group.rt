//! Lists and parts that may be missing: what the grammar repeats, or has once at the most.
ghost use Rattle.std.specs.Prelude.{◌≡◌, ◌<◌, ◌∷◌, ◌++◌, [], ℕ, true, false, Some, length};
ghost use Rattle.sm_syntax.specs.Terminals.{code_of};
ghost use Rattle.sm_syntax.specs.Grammars.{leaf, node, predict};
ghost use Rattle.sm_syntax.specs.Grammar.{grammar};
ghost use Rattle.sm_syntax.specs.Parsing.{is_rule};
ghost use Rattle.sm_syntax.specs.Reading.{Standing, next, is_next, Leads, ReadsWhole};
ghost use Rattle.sm_syntax.specs.TreeSteps.{list_then, optional_then};

use crate::failure::Failure;
use crate::part::{Part, Word};
use crate::reader::Reader;
use sqlite_items::Items;
use std::alloc::Global;

/// A part that the grammar has behind a word in a group of its own, once or any number of times.
pub trait Grouped<W: Word> {
    /// The number of the group.
    ghost group: { ℕ };
}

/// Passes over a word, if it comes next.
fn accept_word<W: Word>(reader: &mut Reader<'_>) -> bool
    ensures next { result ≡ is_next W.terminal reader.old }
    ensures lead { result ≡ true → Leads reader.old (leaf (code_of W.terminal) ∷ []) (λ r. r) reader.new [] }
    ensures shorter { result ≡ true → length reader.new.later < length reader.old.later }
    ensures kept { result ≡ false → reader.new ≡ reader.old }
{
    reader.accept(W::terminal())
}

/// Reads parts that each stand behind a word, as many as there are.
pub fn read_repeated<W: Word, T: Part + Grouped<W>>(
    alloc: Global,
    reader: &mut Reader<'_>,
) -> Result<Items<T>, Failure>
    requires group { is_rule T.group ≡ false }
    requires more { (s : Standing) → is_next W.terminal s ≡ true → predict grammar T.group (next s) ≡ Some (leaf (code_of W.terminal) ∷ (T.symbols ++ node T.group ∷ [])) }
    requires none { (s : Standing) → is_next W.terminal s ≡ false → predict grammar T.group (next s) ≡ Some [] }
    ensures { ReadsWhole reader.old (node T.group ∷ []) (list_then (node T.group) (leaf (code_of W.terminal) ∷ (T.symbols ++ node T.group ∷ [])) T.steps) reader.new result }
{
    let mut items = Items::new(alloc);
    'items: while accept_word::<W>(reader) {
        let item = T::read(alloc, reader)?;
        items.push(item)?;
    }
    Ok(items)
}

/// Reads a part that may stand behind a word.
pub fn read_optional<W: Word, T: Part + Grouped<W>>(
    alloc: Global,
    reader: &mut Reader<'_>,
) -> Result<Option<T>, Failure>
    requires group { is_rule T.group ≡ false }
    requires some { (s : Standing) → is_next W.terminal s ≡ true → predict grammar T.group (next s) ≡ Some (leaf (code_of W.terminal) ∷ T.symbols) }
    requires none { (s : Standing) → is_next W.terminal s ≡ false → predict grammar T.group (next s) ≡ Some [] }
    ensures { ReadsWhole reader.old (node T.group ∷ []) (optional_then (node T.group) (leaf (code_of W.terminal) ∷ T.symbols) T.steps) reader.new result }
{
    if !accept_word::<W>(reader) {
        return Ok(None);
    }
    let part = T::read(alloc, reader)?;
    Ok(Some(part))
}
