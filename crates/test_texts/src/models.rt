//! What comes of model texts.
use crate::print_model::print_tree;
use crate::print_token::Output;
use anyhow::{Result, bail};
use sm_syntax::{ParseRefusal, Tree, parse};
use std::alloc::{AllocError, Global};
use test_tables::Answers;

/// The tokens of a tree, each with a space before it.
fn printed(alloc: Global, tree: &Tree) -> Result<Vec<u8>, AllocError> {
    let mut tokens = Output::new(alloc);
    print_tree(&mut tokens, tree);
    tokens.finish()
}

/// What comes of a text.
#[derive(Drop)]
struct Outcome {
    is_model: bool,
    /// The tokens of its tree, or why it has none.
    text: Vec<u8>,
}

/// The tokens of a tree, or why there is none.
fn text_of(alloc: Global, found: &Result<Tree, ParseRefusal>) -> Result<Vec<u8>> {
    let line = match found {
        Ok(tree) => return Ok(printed(alloc, tree)?),
        Err(ParseRefusal::Syntax { line, column }) => {
            format!(in alloc; "syntax {line} {column}")?
        }
        Err(ParseRefusal::Nesting { found }) => format!(in alloc; "nesting {found}")?,
        Err(ParseRefusal::OutOfMemory) => bail!("memory ran out"),
    };
    Ok(line.into_bytes())
}

/// Reads a text. The tree is dropped by its type's bound here, and nowhere beside other work: its drop is dear to prove.
fn outcome_of(alloc: Global, bytes: &[u8]) -> Result<Outcome> {
    let found = parse(alloc, bytes);
    let is_model = found.is_ok();
    let text = text_of(alloc, &found);
    drop(found);
    let text = text?;
    Ok(Outcome { is_model, text })
}

/// Whether printed tokens are read to a tree that is printed as the same tokens.
fn is_read_back(alloc: Global, tokens: &[u8]) -> Result<bool> {
    let again = outcome_of(alloc, tokens)?;
    Ok(again.is_model && again.text.as_slice() == tokens)
}

/// Answers an outcome, and before it whether the printed tokens are not read back.
fn put_outcome(alloc: Global, outcome: &Outcome, answers: &mut Answers) -> Result<()> {
    if outcome.is_model && !is_read_back(alloc, &outcome.text)? {
        answers.add(b"isn't read back")?;
    }
    answers.add(&outcome.text)?;
    Ok(())
}

/// Answers the tokens of a text's tree, or why it has none.
pub fn answer(alloc: Global, text: &[u8], answers: &mut Answers) -> Result<()> {
    let outcome = outcome_of(alloc, text)?;
    let put = put_outcome(alloc, &outcome, answers);
    drop(outcome);
    put
}
