//! Parts of a text that are read one behind the other.
ghost use Rattle.std.specs.Prelude.{◌≡◌, ◌<◌, ◌∷◌, ◌++◌, [], List, true, length, Ok, Err, IfOk, IfErr, OnOk};
ghost use Rattle.sm_syntax.specs.declared.terminal.Terminal.{Terminal as Kind};
ghost use Rattle.sm_syntax.specs.Terminals.{code_of, opens, closes};
ghost use Rattle.sm_syntax.specs.Grammars.{Symbol, leaf};
ghost use Rattle.sm_syntax.specs.Parsing.{Step};
ghost use Rattle.sm_syntax.specs.Reading.{is_plain, unlisted, ReadsWhole};

use crate::failure::Failure;
use crate::reader::Reader;
use crate::terminal::Terminal;
use sqlite_items::Items;
use std::alloc::{AllocError, Global};
use std::marker::PhantomData;

/// What is read where some symbols of the grammar are to come.
pub trait Part: Sized + Drop {
    /// The symbols that it stands for.
    ghost symbols: { List Symbol };

    /// The steps that list it, and then the rest.
    ghost steps: { Self → List Step → List Step };

    /// Reads it.
    fn read(alloc: Global, reader: &mut Reader<'_>) -> Result<Self, Failure>
        ensures { ReadsWhole reader.old symbols steps reader.new result };
}

/// One part, and then another.
#[derive(Drop)]
pub struct Pair<A, B>(pub A, pub B);

impl<A: Part, B: Part> Part for Pair<A, B> {
    ghost symbols = { A.symbols ++ B.symbols };

    ghost steps = { λ p r. A.steps p.0 (B.steps p.1 r) };

    fn read(alloc: Global, reader: &mut Reader<'_>) -> Result<Pair<A, B>, Failure> {
        let first = A::read(alloc, reader)?;
        let rest = B::read(alloc, reader)?;
        Ok(Pair(first, rest))
    }
}

/// A terminal that is neither a bracket nor a name, a number or the end.
pub trait Word: Sized + Drop {
    ghost terminal: { Kind };

    fn terminal() -> Terminal
        ensures { result ≡ terminal };

    ghost plain: { is_plain terminal ≡ true };
}

/// A word, of which nothing is kept.
#[derive(Drop)]
pub struct Mark<W>(PhantomData<W>);

impl<W: Word> Part for Mark<W> {
    ghost symbols = { leaf (code_of W.terminal) ∷ [] };

    ghost steps = { unlisted };

    fn read(_alloc: Global, reader: &mut Reader<'_>) -> Result<Mark<W>, Failure> {
        reader.expect(W::terminal())?;
        Ok(Mark(PhantomData))
    }
}

/// A pair of brackets.
pub trait Bracket: Sized + Drop {
    ghost opening: { Kind };

    ghost closing: { Kind };

    fn opening() -> Terminal
        ensures { result ≡ opening };

    fn closing() -> Terminal
        ensures { result ≡ closing };

    ghost opened: { opens (code_of opening) ≡ true };

    ghost closed: { closes (code_of closing) ≡ true };
}

/// A part between brackets.
#[derive(Drop)]
pub struct Within<B, P>(pub P, pub PhantomData<B>);

impl<B: Bracket, P: Part> Part for Within<B, P> {
    ghost symbols = { leaf (code_of B.opening) ∷ (P.symbols ++ leaf (code_of B.closing) ∷ []) };

    ghost steps = { λ p r. P.steps p.0 r };

    fn read(alloc: Global, reader: &mut Reader<'_>) -> Result<Within<B, P>, Failure> {
        reader.open(B::opening())?;
        let part = P::read(alloc, reader)?;
        reader.close(B::closing())?;
        Ok(Within(part, PhantomData))
    }
}

/// A part behind a word.
#[derive(Drop)]
pub struct Behind<W, P>(pub P, pub PhantomData<W>);

/// Reads a part behind a word.
pub fn read_behind<W: Word, P: Part>(
    alloc: Global,
    reader: &mut Reader<'_>,
) -> Result<Behind<W, P>, Failure>
    ensures read { ReadsWhole reader.old (leaf (code_of W.terminal) ∷ P.symbols) (λ p r. P.steps p.0 r) reader.new result }
    ensures shorter { OnOk result (length reader.new.later < length reader.old.later) }
{
    reader.expect(W::terminal())?;
    let part = P::read(alloc, reader)?;
    Ok(Behind(part, PhantomData))
}

impl<W: Word, P: Part> Part for Behind<W, P> {
    ghost symbols = { leaf (code_of W.terminal) ∷ P.symbols };

    ghost steps = { λ p r. P.steps p.0 r };

    fn read(alloc: Global, reader: &mut Reader<'_>) -> Result<Behind<W, P>, Failure> {
        read_behind(alloc, reader)
    }
}

/// Both of what is read, one behind the other. Generic, so that what drops the first, where the second fails, is proved here
/// alone.
pub fn joined<A: Drop, B>(first: A, second: Result<B, Failure>) -> Result<Pair<A, B>, Failure>
    ensures ok { IfOk result (λ p. (second ≡ Ok p.1) × (p.0 ≡ first)) }
    ensures err { IfErr result (λ e. second ≡ Err e) }
{
    match second {
        Ok(second) => Ok(Pair(first, second)),
        Err(failure) => Err(failure),
    }
}

/// An item before others.
pub fn gathered<T: Drop>(alloc: Global, first: T, more: Items<T>) -> Result<Items<T>, AllocError>
    ensures { IfOk result (λ xs. xs ≡ first ∷ more) }
{
    let mut items = Items::new(alloc);
    items.push(first)?;
    items.append(more)?;
    Ok(items)
}
