//! The values that the alternatives of the grammar's rules write.
//!
//! Reading is proved here once for all of them: what is a value's own is how it is made of its parts, which has no exits.
ghost use Rattle.std.specs.Prelude.{◌≡◌, ◌<◌, ◌∷◌, [], ℕ, List, length, OnOk};
ghost use Rattle.sm_syntax.specs.Terminals.{code_of};
ghost use Rattle.sm_syntax.specs.Grammars.{leaf, node};
ghost use Rattle.sm_syntax.specs.Parsing.{Step};
ghost use Rattle.sm_syntax.specs.Reading.{Chooses, ReadsWhole, alternative_then};

use crate::failure::Failure;
use crate::part::{Behind, Part, Word, read_behind};
use crate::place::Place;
use crate::reader::Reader;
use std::alloc::Global;

/// What a nonterminal writes by the alternative that has these parts.
pub trait Rule<P: Part>: Sized + Drop {
    /// The number of the nonterminal.
    ghost number: { ℕ };

    /// The steps that list it, and then the rest.
    ghost listed: { Self → List Step → List Step };

    /// The value of these parts, whose first token stands at the place.
    fn build(place: Place, parts: P) -> Self
        ensures { (r : List Step) → listed result r ≡ alternative_then number P.symbols place (P.steps parts r) };
}

/// Reads a nonterminal by the alternative that the next token chooses.
pub fn read_rule<P: Part, T: Rule<P>>(alloc: Global, reader: &mut Reader<'_>) -> Result<T, Failure>
    requires { Chooses reader.old (node T.number) P.symbols }
    ensures { ReadsWhole reader.old (node T.number ∷ []) T.listed reader.new result }
{
    let place = reader.place();
    let parts = P::read(alloc, reader)?;
    Ok(T::build(place, parts))
}

/// Reads a nonterminal by the alternative that begins with a word.
pub fn read_rule_behind<W: Word, P: Part, T: Rule<Behind<W, P>>>(
    alloc: Global,
    reader: &mut Reader<'_>,
) -> Result<T, Failure>
    requires { Chooses reader.old (node T.number) (leaf (code_of W.terminal) ∷ P.symbols) }
    ensures read { ReadsWhole reader.old (node T.number ∷ []) T.listed reader.new result }
    ensures shorter { OnOk result (length reader.new.later < length reader.old.later) }
{
    let place = reader.place();
    let parts = read_behind::<W, P>(alloc, reader)?;
    Ok(T::build(place, parts))
}
