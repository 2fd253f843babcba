//! Whole numbers as texts.
use crate::input::Input;
use crate::output::Output;
use sm_base::read_whole;

/// Puts the number that a text says, or `none`.
fn put_number(text: &[u8], out: &mut Output) {
    match read_whole(text) {
        Some(number) => out.next(number),
        None => out.text(" none"),
    }
}

/// Puts what a text says that is a word, or is given by its bytes.
pub(crate) fn put_text(input: &mut Input<'_>, out: &mut Output) {
    let name = input.word();
    out.text(name);
    match name {
        "word" => put_number(input.word().as_bytes(), out),
        "bytes" => put_number(&input.bytes(), out),
        _ => input.refuse(),
    }
}
