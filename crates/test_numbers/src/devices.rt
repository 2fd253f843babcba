//! Shelves and sinks that fail as planned.
use crate::input::Input;
use crate::output::Output;
use sm_base::{MemShelf, MemSink, NullSink, ReadRefusal, Shelf, Sink, put_all, read_all};

/// Puts what reading a whole file answers: its bytes, or why not.
pub(crate) fn put_disk<F: Shelf>(input: &mut Input<'_>, shelf: &mut F, out: &mut Output) {
    let name = input.word();
    let bound = input.bits();
    match read_all(input.alloc(), shelf, name, bound) {
        Ok(bytes) => {
            out.text(" ");
            out.piece(&bytes);
        }
        Err(ReadRefusal::ReadFault) => out.text(" fault"),
        Err(ReadRefusal::TooLarge { found }) => {
            out.text(" found");
            out.next(found as i128);
        }
        Err(ReadRefusal::OutOfMemory) => out.fail(),
    }
}

/// Puts the reads of a shelf in memory: the fetches that fail, the names and texts of its files, and then what is read.
fn put_shelf(input: &mut Input<'_>, out: &mut Output) {
    let failing = input.words_of_bits();
    let Ok(mut shelf) = MemShelf::new(input.alloc(), &failing) else {
        out.fail();
        return;
    };
    for _ in 0..input.size() {
        let name = input.word();
        let text = input.word();
        if shelf.add(name, text.as_bytes()).is_err() {
            out.fail();
        }
    }
    for _ in 0..input.size() {
        put_disk(input, &mut shelf, out);
    }
}

/// Puts whether the sink takes a piece.
fn put_piece<S: Sink>(sink: &mut S, piece: &[u8], out: &mut Output) {
    out.text(match put_all(sink, piece) {
        Ok(()) => " taken",
        Err(_) => " fault",
    });
}

/// Puts what a sink in memory takes: its room, the most bytes of a put, the puts that fail, and the text.
fn put_sink(input: &mut Input<'_>, out: &mut Output) {
    let room = input.size();
    let most = input.size();
    let failing = input.words_of_bits();
    let text = input.word();
    match MemSink::new(input.alloc(), room, most, &failing) {
        Ok(mut sink) => {
            put_piece(&mut sink, text.as_bytes(), out);
            out.text(" ");
            out.piece(sink.written());
        }
        Err(_) => out.fail(),
    }
}

/// Puts what is asked of shelves and sinks in memory.
pub(crate) fn put_memory(input: &mut Input<'_>, out: &mut Output) {
    let name = input.word();
    out.text(name);
    match name {
        "shelf" => put_shelf(input, out),
        "sink" => put_sink(input, out),
        "null" => put_piece(&mut NullSink::new(), input.word().as_bytes(), out),
        _ => input.refuse(),
    }
}
