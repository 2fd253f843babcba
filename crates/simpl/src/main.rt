//! An optimiser whose answers are proved: `simpl solve MODEL [DATA ...]` writes the proof log of a search, which ends in the
//! verdict, or with `--brief` the best solution and the verdict alone; `simpl check MODEL [DATA ...] LOG` says whether a log
//! proves its verdict.
#![tactic(auto)]

use sm_base::{DiskShelf, NullSink, StdSink};
use sm_run::run;
use std::alloc::Global;
use std::env;
use std::process::ExitCode;
use std::rt::Env;

/// The words after the program's name; none where a word isn't text.
fn words_of<R: Env + AllocGlobal>(rt: &R) -> Option<Vec<String>> {
    let mut words = Vec::new(rt.alloc());
    for word in env::args(rt).ok()?.skip(1) {
        words.push(word).ok()?;
    }
    Some(words)
}

fn main(rt: HostRuntime) -> ExitCode {
    // Words that aren't text are no command line: the run answers them as it does no words.
    let words = match words_of(&rt) {
        Some(words) => words,
        None => Vec::new(rt.alloc()),
    };
    let mut shelf = DiskShelf::new(&rt);
    let mut out = StdSink::new(&rt);
    let mut aside = NullSink::new();
    ExitCode::from(run(rt.alloc(), &words, &mut shelf, &mut out, &mut aside))
}
