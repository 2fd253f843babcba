//! Tokens: how a text is cut.
ghost use Rattle.std.specs.Prelude.{◌≡◌, ◌≤◌, ◌<◌, ◌∷◌, true, false, IfSome, All, length, option_map};
ghost use Rattle.std.specs.List.{prefix_len};
ghost use Rattle.sm_syntax.specs.declared.terminal.Terminal.TheVariants as terminals;
ghost use Rattle.sm_words.specs.Letters.{is_digit, is_in_word};
ghost use Rattle.sm_syntax.specs.Tokens.{is_in_line, piece_of, length_behind, place_behind, word_terminal, digits_terminal, number_of, sign_terminal, terminal_of, value_of, tokens_from};
ghost use Rattle.sm_syntax.specs.Lexing.{seen, is_end, behind, with_token};

use crate::place::Place;
use crate::terminal::{Piece, Terminal};
use crate::words::reserved_word;
use sm_words::{LONGEST_NAME, is_digit, is_in_word};

/// A token.
#[derive(Clone, Copy)]
pub struct Token<'a> {
    pub terminal: Terminal,
    /// Its bytes, lent by the text.
    pub word: &'a [u8],
    /// What its digits write, for a number.
    pub value: u64,
    pub place: Place,
}

/// What a byte begins.
fn piece_of(first: u8) -> Piece
    ensures { result ≡ piece_of first }
{
    match first {
        b' ' | b'\t' | b'\r' | b'\n' => Piece::Blank,
        b'#' => Piece::Comment,
        b'a'..=b'z' | b'A'..=b'Z' | b'_' => Piece::Word,
        b'0'..=b'9' => Piece::Digits,
        _ => Piece::Sign,
    }
}

/// How many of the first bytes go on with a word.
fn word_length(bytes: &[u8]) -> usize
    ensures { result ≡ prefix_len is_in_word bytes.now }
{
    bytes.iter().take_while(|b| is_in_word(**b)).count()
}

/// How many of the first bytes are digits.
fn digits_length(bytes: &[u8]) -> usize
    ensures { result ≡ prefix_len is_digit bytes.now }
{
    bytes.iter().take_while(|b| is_digit(**b)).count()
}

/// How many of the first bytes stand before the end of the line.
fn line_length(bytes: &[u8]) -> usize
    ensures { result ≡ prefix_len is_in_line bytes.now }
{
    bytes.iter().take_while(|b| **b != b'\n').count()
}

/// How many bytes behind the first belong to the sign.
fn sign_length(first: u8, after: &[u8]) -> usize
    ensures { result ≡ length_behind Piece.Sign first after.now }
{
    match (first, after) {
        (b'.', [b'.', ..]) | (b'<' | b'>' | b'!', [b'=', ..]) => 1,
        _ => 0,
    }
}

/// How many bytes behind the first belong to its piece.
#[tactic(auto, using(crate::proofs::Cuts::run_within))]
fn length_behind(piece: Piece, first: u8, after: &[u8]) -> usize
    ensures value { result ≡ length_behind piece first after.now }
    ensures within { result ≤ length after.now }
{
    match piece {
        Piece::Blank => 0,
        Piece::Comment => line_length(after),
        Piece::Word => word_length(after),
        Piece::Digits => digits_length(after),
        Piece::Sign => sign_length(first, after),
    }
}

/// The terminal of a word.
fn word_terminal(word: &[u8]) -> Terminal
    ensures { result ≡ word_terminal word.now }
{
    match reserved_word(word) {
        Some(terminal) => terminal,
        None => {
            if word.len() <= LONGEST_NAME {
                Terminal::Name
            } else {
                Terminal::Bad
            }
        }
    }
}

/// The terminal of digits.
fn digits_terminal(digits: &[u8]) -> Terminal
    ensures { result ≡ digits_terminal digits.now }
{
    if digits.len() <= 18 {
        Terminal::Number
    } else {
        Terminal::Bad
    }
}

/// The terminal of a sign.
fn sign_terminal(sign: &[u8]) -> Terminal
    ensures { result ≡ sign_terminal sign.now }
{
    match sign {
        b";" => Terminal::Semicolon,
        b"," => Terminal::Comma,
        b":" => Terminal::Colon,
        b".." => Terminal::To,
        b"<" => Terminal::Less,
        b"<=" => Terminal::AtMost,
        b">" => Terminal::Greater,
        b">=" => Terminal::AtLeast,
        b"=" => Terminal::Equal,
        b"!=" => Terminal::Unequal,
        b"+" => Terminal::Plus,
        b"-" => Terminal::Minus,
        b"*" => Terminal::Times,
        b"(" => Terminal::OpenRound,
        b")" => Terminal::CloseRound,
        b"[" => Terminal::OpenSquare,
        b"]" => Terminal::CloseSquare,
        b"{" => Terminal::OpenBrace,
        b"}" => Terminal::CloseBrace,
        _ => Terminal::Bad,
    }
}

/// What digits write.
fn number_of(digits: &[u8]) -> u64
    requires few { length digits.now ≤ 18 }
    requires digits { All (λ d. is_digit d ≡ true) digits.now }
    ensures { result ≡ number_of digits.now }
{
    let mut value: u64 = 0;
    for digit in digits {
        value = 10 * value + u64::from(digit - b'0');
    }
    value
}

/// The terminal of a piece, if it is a token.
fn terminal_of(piece: Piece, bytes: &[u8]) -> Option<Terminal>
    ensures { result ≡ terminal_of piece bytes.now }
{
    match piece {
        Piece::Blank | Piece::Comment => None,
        Piece::Word => Some(word_terminal(bytes)),
        Piece::Digits => Some(digits_terminal(bytes)),
        Piece::Sign => Some(sign_terminal(bytes)),
    }
}

/// The value of a token.
fn value_of(terminal: Terminal, bytes: &[u8]) -> u64
    requires few { terminal ≡ terminals.Number → length bytes.now ≤ 18 }
    requires digits { terminal ≡ terminals.Number → All (λ d. is_digit d ≡ true) bytes.now }
    ensures { result ≡ value_of terminal bytes.now }
{
    match terminal {
        Terminal::Number => number_of(bytes),
        _ => 0,
    }
}

/// The place behind a piece.
fn place_behind(place: Place, first: u8, length: usize) -> Place
    ensures { result ≡ place_behind place first length }
{
    if first == b'\n' {
        place.next_line()
    } else {
        place.along(length)
    }
}

/// The first piece of a text that goes on at a place, as a token if it is one, and the text behind it with its place.
fn next_piece(text: &[u8], place: Place) -> (Option<Token<'_>>, &[u8], Place)
    requires { 0 < length text.now }
    ensures cut { tokens_from text.now place ≡ with_token (option_map seen result.0) (tokens_from result.1.now result.2) }
    ensures inner { IfSome result.0 (λ t. is_end (seen t) ≡ false) }
    ensures shorter { length result.1.now < length text.now }
{
    let first = text[0];
    let piece = piece_of(first);
    let length = length_behind(piece, first, &text[1..]) + 1;
    let word = &text[..length];
    let rest = &text[length..];
    let next = place_behind(place, first, length);
    let Some(terminal) = terminal_of(piece, word) else {
        return (None, rest, next);
    };
    let token = Token {
        terminal,
        word,
        value: value_of(terminal, word),
        place,
    };
    (Some(token), rest, next)
}

/// The first token of a text that goes on at a place, and the text behind it with its place.
pub fn next_token(text: &[u8], place: Place) -> (Token<'_>, &[u8], Place)
    ensures { tokens_from text.now place ≡ seen result.0 ∷ behind (seen result.0) (tokens_from result.1.now result.2) }
{
    let mut rest = text;
    let mut here = place;
    while !rest.is_empty() {
        let (token, after, next) = next_piece(rest, here);
        rest = after;
        here = next;
        if let Some(token) = token {
            return (token, rest, here);
        }
    }
    let end = Token {
        terminal: Terminal::End,
        word: rest,
        value: 0,
        place: here,
    };
    (end, rest, here)
}
