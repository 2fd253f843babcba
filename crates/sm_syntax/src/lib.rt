//! The reader of the model language: a text to its tree, or its first bad token.
#![tactic(auto)]

ghost use Rattle.std.specs.Prelude.{◌≡◌, ℕ, Err, IfOk, is_some};
ghost use Rattle.sm_words.specs.Names.{is_reserved};
ghost use Rattle.sm_syntax.specs.Models.{Bytes, IsModel, IsTreeOf, IsFirstBad, IsTooDeep, refusal_at};
ghost use Rattle.sm_syntax.specs.Trees.{tree_of, Tree as PlainTree};
ghost use Rattle.sm_syntax.specs.Words.{reserved_word};

mod expression;
mod failure;
mod formula;
mod group;
mod keyword;
mod part;
mod place;
mod read_constraint;
mod read_expression;
mod read_formula;
mod read_list;
mod read_model;
mod read_tag;
mod reader;
mod rule;
mod sign;
mod terminal;
mod token;
mod tree;
mod words;

use crate::failure::Failure;
use crate::read_model::read_text;
use crate::reader::Reader;
pub use expression::{Addend, Binders, Expr, Factor, Term, Test};
pub use formula::{Atom, Conclusion, Conj, Disj, Formula, Quantifier, Unit};
pub use place::Place;
use std::alloc::Global;
use thiserror::Error;
pub use tree::{
    Aim, Bind, Choice, Choosing, Cmp, Cons, Ctask, Dtask, Goal, Item, Kind, Level, List, Lit,
    LitRelation, Load, Name, Number, Picking, Relation, Relaxing, Sign, Splitting, Tag, Tree,
    Values,
};

/// Why a text has no tree.
#[derive(Clone, Copy, Debug, Error)]
pub enum ParseRefusal {
    /// The text is no model. No model begins with the part of the text up to this token, and some model begins
    /// with the part before it.
    #[error("syntax error at line {line}, column {column}")]
    Syntax { line: u32, column: u32 },
    /// A bracket is opened inside as many as may be open, where some model goes on so. It makes so many.
    #[error("{found} brackets are open inside one another")]
    Nesting { found: u32 },
    #[error("memory ran out")]
    OutOfMemory,
}

/// The tree of a text.
///
/// # Errors
///
/// [`ParseRefusal`] says when each comes.
pub fn parse(alloc: Global, text: &[u8]) -> Result<Tree, ParseRefusal>
    // The tree is the one that the grammar gives the text (`one_tree`).
    ensures found { IfOk result (λ t. IsTreeOf text.now (tree_of t)) }
    // So a text that has a tree is a model, and no bracket in it is too deep.
    ensures model { IfOk result (λ _. IsModel text.now) }
    ensures shallow { IfOk result (λ _. IsTooDeep text.now → ⊥) }
    ensures nesting { (n : ℕ) → result ≡ Err (ParseRefusal.Nesting n) → (n ≡ 65) × IsTooDeep text.now }
    ensures syntax { (l c : ℕ) → result ≡ Err (ParseRefusal.Syntax l c) → IsFirstBad text.now (record { line = l; column = c }) }
    ensures below { (l c : ℕ) → result ≡ Err (ParseRefusal.Syntax l c) → IsTooDeep text.now → ⊥ }
{
    let mut reader = Reader::new(text);
    match read_text(alloc, &mut reader) {
        Ok(tree) => Ok(tree),
        Err(failure) => Err(refusal(failure, reader.place())),
    }
}

/// Lets a tree go. A caller that drops a tree itself has to prove anew how each part of it is dropped.
pub fn discard(tree: Tree) {
    drop(tree);
}

/// Why there is no tree, where the reader stopped at a place.
fn refusal(failure: Failure, place: Place) -> ParseRefusal
    ensures { result ≡ refusal_at failure place }
{
    match failure {
        Failure::Syntax => ParseRefusal::Syntax {
            line: place.line,
            column: place.column,
        },
        Failure::Nesting => ParseRefusal::Nesting { found: 65 },
        Failure::OutOfMemory => ParseRefusal::OutOfMemory,
    }
}

/// A law: no text has two trees.
pub fn one_tree()
    ensures { (text : Bytes) (a b : PlainTree) → IsTreeOf text a → IsTreeOf text b → a ≡ b }
{}

/// A law: no text has two first bad tokens, and a model has none.
pub fn one_first_bad()
    ensures one { (text : Bytes) (a b : Place) → IsFirstBad text a → IsFirstBad text b → a ≡ b }
    ensures none { (text : Bytes) (place : Place) → IsModel text → IsFirstBad text place → ⊥ }
{}

/// A law: the words that have a terminal of their own are the reserved ones, of which none is a name.
pub fn reserved_words()
    ensures { (word : Bytes) → is_some (reserved_word word) ≡ is_reserved word }
{}
