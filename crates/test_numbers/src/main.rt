//! Puts what the calls on numbers, lists and linear programs answer to the cases of the tables beside it, one line a case.
//!
//! A case is a line of words: first what is asked, and then whole numbers, lists of them with their lengths in front, and
//! names. What was expected stands in the file `stdout`.
#![tactic(auto)]

mod devices;
mod fractions;
mod input;
mod lanes;
mod output;
mod programs;
mod texts;

use crate::devices::{put_disk, put_memory};
use crate::fractions::put_fraction;
use crate::input::Input;
use crate::lanes::{Lists, put_lanes};
use crate::output::Output;
use crate::programs::put_program;
use crate::texts::put_text;
use sm_base::{DiskShelf, Shelf, StdSink, put_all, read_all};
use std::alloc::Global;
use std::process::ExitCode;

/// The tables, in the order of their answers.
const TABLES: [&str; 6] = [
    "texts",
    "fractions",
    "lists",
    "devices",
    "programs",
    "drawn",
];

/// The most bytes of a table.
const MOST: u64 = 1 << 24;

/// Puts the answer to a case, whose first word says to which calls it goes.
fn put_case<F: Shelf>(input: &mut Input<'_>, shelf: &mut F, lists: &mut Lists, out: &mut Output) {
    match input.word() {
        "text" => put_text(input, out),
        "fraction" => put_fraction(input, out),
        "list" => put_lanes(input, lists, out),
        "memory" => put_memory(input, out),
        "disk" => put_disk(input, shelf, out),
        "program" => put_program(input, out),
        _ => input.refuse(),
    }
}

/// Puts the answers to the lines of a table, and says whether each is a case.
fn put_lines<F: Shelf>(alloc: Global, text: &str, shelf: &mut F, out: &mut Output) -> bool {
    let mut lists = Lists::new(alloc);
    for line in text.lines() {
        let mut input = Input::new(alloc, line);
        put_case(&mut input, shelf, &mut lists, out);
        if !input.is_done() {
            out.text("no case: ");
            out.text(line);
            return false;
        }
        out.end_line();
    }
    true
}

/// Puts the answers to a table, and says whether it could be read.
fn put_table<F: Shelf>(alloc: Global, name: &str, shelf: &mut F, out: &mut Output) -> bool {
    if let Ok(bytes) = read_all(alloc, shelf, name, MOST)
        && let Ok(text) = str::from_utf8(&bytes)
    {
        return put_lines(alloc, text, shelf, out);
    }
    out.text("no table: ");
    out.text(name);
    false
}

fn main(rt: HostRuntime) -> ExitCode {
    let mut shelf = DiskShelf::new(&rt);
    let mut out = Output::new(rt.alloc());
    let mut good = true;
    for name in TABLES {
        good = good && put_table(rt.alloc(), name, &mut shelf, &mut out);
    }
    let mut sink = StdSink::new(&rt);
    if put_all(&mut sink, out.bytes()).is_ok() && good && !out.is_full() {
        ExitCode::SUCCESS
    } else {
        ExitCode::FAILURE
    }
}
