//! A search, as the program puts it.
ghost use Rattle.std.specs.Prelude.{◌≡◌, ℕ, List, map, false};
ghost use Rattle.sm_data.specs.Documents.{Entry};
ghost use Rattle.sm_syntax.specs.Trees.{Tree};
ghost use Rattle.sm_loading.specs.Loading.{Held};
ghost use Rattle.sm_run.specs.Causes.{IsModelOf, IsFlatOfFiles, is_early};
ghost use Rattle.sm_run.specs.Devices.{Effects};
ghost use Rattle.sm_run.specs.Endings as run;
ghost use Rattle.sm_run.specs.Endings.{DueOfSolve, StopsOfSolve, EndsBy};
ghost use Rattle.sm_run.specs.Telling.{device};
ghost use Rattle.sm_run.specs.Searching.{EndsLog, EndsBrief, HaltsLog, HaltsAside, TellsSolution};

use crate::ending::{Ending, Outcome};
use crate::loading::{flat_of_files, is_early};
use crate::telling::{refuse, tell, tell_early};
use sm_base::{Shelf, Sink};
use sm_data::Counted;
use sm_flat::Flat;
use sm_reports::{ErrorLine, brief_text};
use sm_search::{Halt, SolveRefusal, Solved, WorkRefusal, solve};
use std::alloc::Global;

/// How many bytes a log has at most.
const LOG_LIMIT: i128 = 1 << 40;

/// The line for a log that is too long.
pub(crate) fn log_limit<'a>() -> ErrorLine<'a>
    ensures { result ≡ run.log_limit }
{
    ErrorLine::Limit {
        what: Counted::Log,
        found: LOG_LIMIT + 1,
        bound: LOG_LIMIT,
    }
}

/// How a run ends whose search stopped, where its log goes to the output.
fn stopped<'a, S: Sink>(alloc: Global, out: &mut S, halt: Halt) -> Ending<'a>
    ensures { HaltsLog halt (device (S.faults out.old) (S.faults out.new) (S.written out.old) (S.written out.new)) result }
{
    match halt {
        Halt {
            refusal: WorkRefusal::OutOfMemory,
            begun: false,
        } => refuse(alloc, out, ErrorLine::Memory),
        Halt { refusal, .. } => Ending::Stopped(refusal),
    }
}

/// Searches a model, and puts the log.
fn put_log<'a, S: Sink>(alloc: Global, flat: &Flat, out: &mut S) -> Ending<'a>
    requires { is_early flat.now ≡ false }
    ensures { (whole : Tree) (tables : List Entry) → IsModelOf whole tables flat.now →
        EndsLog whole tables flat.now (device (S.faults out.old) (S.faults out.new) (S.written out.old) (S.written out.new)) result }
{
    match solve(alloc, flat, out) {
        Ok(solved) => Ending::Solved(Outcome::of(&solved.verdict)),
        Err(SolveRefusal::Halted(halt)) => stopped(alloc, out, halt),
        // No variable is real.
        Err(SolveRefusal::RealVariable) => unreachable!(),
    }
}

/// Puts the best solution of a search, by the names of its variables, and its verdict.
fn put_solution<'a, S: Sink>(alloc: Global, flat: &Flat, solved: &Solved, out: &mut S) -> Ending<'a>
    ensures { TellsSolution flat.now solved.now (device (S.faults out.old) (S.faults out.new) (S.written out.old) (S.written out.new)) result }
{
    match brief_text(alloc, flat.vars(), solved.best.as_ref(), &solved.verdict) {
        Ok(text) => tell(
            out,
            text.as_slice(),
            Ending::Solved(Outcome::of(&solved.verdict)),
        ),
        Err(_) => refuse(alloc, out, ErrorLine::Memory),
    }
}

/// How a run ends whose search stopped, where its log goes aside.
fn stopped_aside<'a, S: Sink>(alloc: Global, out: &mut S, refusal: WorkRefusal) -> Ending<'a>
    ensures { HaltsAside refusal (device (S.faults out.old) (S.faults out.new) (S.written out.old) (S.written out.new)) result }
{
    match refusal {
        WorkRefusal::OutOfMemory => refuse(alloc, out, ErrorLine::Memory),
        WorkRefusal::LogTooLong => refuse(alloc, out, log_limit()),
        WorkRefusal::WriteFault => Ending::Stopped(refusal),
    }
}

/// Searches a model, puts the log aside, and tells the best solution.
fn put_brief<'a, S: Sink, D: Sink>(
    alloc: Global,
    flat: &Flat,
    out: &mut S,
    aside: &mut D,
) -> Ending<'a>
    requires { is_early flat.now ≡ false }
    ensures { (whole : Tree) (tables : List Entry) → IsModelOf whole tables flat.now →
        EndsBrief whole tables flat.now (device (S.faults out.old) (S.faults out.new) (S.written out.old) (S.written out.new))
        (device (D.faults aside.old) (D.faults aside.new) (D.written aside.old) (D.written aside.new)) result }
{
    match solve(alloc, flat, aside) {
        Ok(solved) => put_solution(alloc, flat, &solved, out),
        Err(SolveRefusal::Halted(halt)) => stopped_aside(alloc, out, halt.refusal),
        // No variable is real.
        Err(SolveRefusal::RealVariable) => unreachable!(),
    }
}

/// Searches a model, and puts the log, or with `brief` the best solution and the log aside.
fn put_search<'a, S: Sink, D: Sink>(
    alloc: Global,
    flat: &Flat,
    brief: bool,
    out: &mut S,
    aside: &mut D,
) -> Ending<'a>
    ensures { (held : Held) (model : List ℕ) (files : List (List ℕ)) (read_before read_now : ℕ) → IsFlatOfFiles held model files flat.now →
        let e : Effects = record {
          read_before = read_before;
          read_now = read_now;
          out = device (S.faults out.old) (S.faults out.new) (S.written out.old) (S.written out.new);
          aside = device (D.faults aside.old) (D.faults aside.new) (D.written aside.old) (D.written aside.new);
        } in
        EndsBy (DueOfSolve held model files brief e) (StopsOfSolve held model files brief e) e.out result }
{
    if is_early(flat) {
        return tell_early(out);
    }
    if brief {
        put_brief(alloc, flat, out, aside)
    } else {
        put_log(alloc, flat, out)
    }
}

/// Searches the model of files.
pub(crate) fn solved<'a, F: Shelf, S: Sink, D: Sink>(
    alloc: Global,
    model: &str,
    files: &[&'a str],
    brief: bool,
    shelf: &mut F,
    out: &mut S,
    aside: &mut D,
) -> Ending<'a>
    ensures { let e : Effects = record {
      read_before = F.faults shelf.old;
      read_now = F.faults shelf.new;
      out = device (S.faults out.old) (S.faults out.new) (S.written out.old) (S.written out.new);
      aside = device (D.faults aside.old) (D.faults aside.new) (D.written aside.old) (D.written aside.new);
    } in
        EndsBy (DueOfSolve (F.held shelf.old) model.now (map (λ f. f.now) files.now) brief e) (StopsOfSolve (F.held shelf.old) model.now (map (λ f. f.now) files.now) brief e) e.out result }
{
    match flat_of_files(alloc, shelf, model, files) {
        Ok(flat) => put_search(alloc, &flat, brief, out, aside),
        Err(error) => refuse(alloc, out, error),
    }
}
