//! Which words are reserved, and which are names.
ghost use Rattle.std.specs.Prelude.{◌≡◌, MatchOption, true, false};
ghost use Rattle.std.specs.List.{list_all, list_any};
ghost use Rattle.std.specs.Str.{bytes_eq};
ghost use Rattle.sm_words.specs.Letters.{is_in_word};
ghost use Rattle.sm_words.specs.Names.{words_of, is_reserved, is_word, is_name};

use crate::letters::{is_in_word, is_letter};

/// The most bytes of a name.
pub const LONGEST_NAME: usize = 64;

/// The reserved words, parted by spaces.
const RESERVED_WORDS: &[u8] =
    b"index var post forall set int real satisfy minimise maximise if and in for sum logic when then alldiff circuit element indexsum assign cumulative disjunctive packing implies iff or not all any infer relax branch pick split sub none bounds full on first small point half least most";

/// Whether the word is one of the line.
fn is_word_of(line: &[u8], word: &[u8]) -> bool
    ensures { result ≡ list_any (bytes_eq word.now) (words_of line.now) }
{
    line.split(|b| *b == b' ').any(|other| word == other)
}

/// Whether the word is reserved.
#[tactic(auto, unfolding(crate::specs::Names::reserved_words))]
pub fn is_reserved(word: &[u8]) -> bool
    ensures { result ≡ is_reserved word.now }
{
    is_word_of(RESERVED_WORDS, word)
}

/// Whether a word goes on with each of the bytes.
fn are_in_word(bytes: &[u8]) -> bool
    ensures { result ≡ list_all is_in_word bytes.now }
{
    bytes.iter().all(|b| is_in_word(*b))
}

/// Whether the bytes are a letter or `_`, then letters, digits and `_`.
pub fn is_word(bytes: &[u8]) -> bool
    ensures { result ≡ is_word bytes.now }
{
    match bytes {
        [first, rest @ ..] => is_letter(*first) && are_in_word(rest),
        [] => false,
    }
}

/// Whether the bytes are a name: a word of at most [`LONGEST_NAME`] bytes that isn't reserved.
pub fn is_name(bytes: &[u8]) -> bool
    ensures { result ≡ is_name bytes.now }
{
    is_word(bytes) && bytes.len() <= LONGEST_NAME && !is_reserved(bytes)
}

/// The bytes as text, if they are a name.
pub fn name_text(bytes: &[u8]) -> Option<&str>
    ensures { MatchOption result (is_name bytes.now ≡ false) (λ s. (is_name bytes.now ≡ true) × (s.now ≡ bytes.now)) }
{
    if !is_name(bytes) {
        return None;
    }
    match str::from_utf8(bytes) {
        Ok(text) => Some(text),
        Err(_) => None,
    }
}
