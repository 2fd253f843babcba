//! A check, as the program tells it.
ghost use Rattle.std.specs.Prelude.{◌≡◌, ◌≤◌, ℕ, List, [], map};
ghost use Rattle.sm_data.specs.Documents.{Entry};
ghost use Rattle.sm_syntax.specs.Trees.{Tree};
ghost use Rattle.sm_loading.specs.Loading.{Held};
ghost use Rattle.sm_run.specs.Causes.{IsModelOf, IsFlatOfFiles};
ghost use Rattle.sm_run.specs.Devices.{Device, Effects, Puts};
ghost use Rattle.sm_run.specs.Endings.{DueOfCheck, EndsBy};
ghost use Rattle.sm_run.specs.Telling.{device, TellsLine, TellsVerdict, TellsRefusal};
ghost use Rattle.sm_run.specs.Searching.{EndsCheck};

use crate::ending::Ending;
use crate::loading::{flat_of_files, is_early};
use crate::solving::log_limit;
use crate::telling::{refuse, tell, tell_early};
use sm_base::{OutOfMemory, Shelf, Sink};
use sm_check::{CheckRefusal, check};
use sm_flat::Flat;
use sm_reports::{ErrorLine, accepted_line, refused_line};
use sm_step::Verdict;
use std::alloc::Global;

/// Puts a line, if there was memory for it.
fn tell_line<'a, S: Sink>(
    alloc: Global,
    out: &mut S,
    line: Result<Vec<u8>, OutOfMemory>,
    ending: Ending<'a>,
) -> Ending<'a>
    ensures { TellsLine line ending.entry (device (S.faults out.old) (S.faults out.new) (S.written out.old) (S.written out.new)) result }
{
    match line {
        Ok(line) => tell(out, line.as_slice(), ending),
        Err(_) => refuse(alloc, out, ErrorLine::Memory),
    }
}

/// Tells why a log isn't accepted.
fn tell_refusal<'a, S: Sink>(alloc: Global, out: &mut S, refusal: CheckRefusal) -> Ending<'a>
    ensures { TellsRefusal refusal (device (S.faults out.old) (S.faults out.new) (S.written out.old) (S.written out.new)) result }
{
    match refusal {
        CheckRefusal::Refused { line, cause } => tell_line(
            alloc,
            out,
            refused_line(alloc, line, cause),
            Ending::LogRefused,
        ),
        CheckRefusal::ReadFault => refuse(alloc, out, ErrorLine::Read),
        CheckRefusal::LogTooLong => refuse(alloc, out, log_limit()),
        CheckRefusal::OutOfMemory => refuse(alloc, out, ErrorLine::Memory),
    }
}

/// Tells that a log is accepted.
fn tell_verdict<'a, S: Sink>(alloc: Global, out: &mut S, verdict: Verdict) -> Ending<'a>
    ensures { TellsVerdict verdict (device (S.faults out.old) (S.faults out.new) (S.written out.old) (S.written out.new)) result }
{
    tell_line(alloc, out, accepted_line(alloc, &verdict), Ending::Accepted)
}

/// Checks a log against a model, and tells what it shows.
fn put_check<'a, F: Shelf, S: Sink>(
    alloc: Global,
    flat: &Flat,
    log: &str,
    shelf: &mut F,
    out: &mut S,
) -> Ending<'a>
    ensures says { (whole : Tree) (tables : List Entry) → IsModelOf whole tables flat.now →
        EndsCheck whole tables flat.now (F.held shelf.old log.now) (F.faults shelf.old) (F.faults shelf.new)
        (device (S.faults out.old) (S.faults out.new) (S.written out.old) (S.written out.new)) result }
    ensures later { F.faults shelf.old ≤ F.faults shelf.new }
{
    match check(alloc, flat, shelf, log) {
        Ok(verdict) => tell_verdict(alloc, out, verdict),
        Err(refusal) => tell_refusal(alloc, out, refusal),
    }
}

/// Checks a log against a model that a search takes, and tells what it shows.
fn put_answer<'a, F: Shelf, S: Sink>(
    alloc: Global,
    flat: &Flat,
    log: &str,
    shelf: &mut F,
    out: &mut S,
) -> Ending<'a>
    ensures says { (held : Held) (model : List ℕ) (files : List (List ℕ)) (read_before : ℕ) (aside : Device) → IsFlatOfFiles held model files flat.now →
        F.held shelf.old log.now ≡ held log.now → read_before ≤ F.faults shelf.old → Puts aside [] →
        let e : Effects = record {
          read_before = read_before;
          read_now = F.faults shelf.new;
          out = device (S.faults out.old) (S.faults out.new) (S.written out.old) (S.written out.new);
          aside = aside;
        } in
        EndsBy (DueOfCheck held model files log.now e) (λ r. ⊥) e.out result }
    ensures later { F.faults shelf.old ≤ F.faults shelf.new }
{
    if is_early(flat) {
        return tell_early(out);
    }
    put_check(alloc, flat, log, shelf, out)
}

/// Checks a log against the model of files.
pub(crate) fn checked<'a, F: Shelf, S: Sink>(
    alloc: Global,
    model: &str,
    files: &[&'a str],
    log: &str,
    shelf: &mut F,
    out: &mut S,
) -> Ending<'a>
    ensures { (aside : Device) → Puts aside [] →
        let e : Effects = record {
          read_before = F.faults shelf.old;
          read_now = F.faults shelf.new;
          out = device (S.faults out.old) (S.faults out.new) (S.written out.old) (S.written out.new);
          aside = aside;
        } in
        EndsBy (DueOfCheck (F.held shelf.old) model.now (map (λ f. f.now) files.now) log.now e) (λ r. ⊥) e.out result }
{
    match flat_of_files(alloc, shelf, model, files) {
        Ok(flat) => put_answer(alloc, &flat, log, shelf, out),
        Err(error) => refuse(alloc, out, error),
    }
}
