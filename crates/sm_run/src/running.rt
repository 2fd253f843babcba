//! The top call.
ghost use Rattle.std.specs.Prelude.{map, string_bytes};
ghost use Rattle.sm_run.specs.Devices.{Given, Effects};
ghost use Rattle.sm_run.specs.Endings.{Ends, Says};
ghost use Rattle.sm_run.specs.Telling.{device};

use crate::checking::checked;
use crate::ending::Ending;
use crate::solving::solved;
use crate::telling::refuse;
use sm_arguments::{Request, RequestRefusal, request};
use sm_base::{Shelf, Sink};
use sm_reports::ErrorLine;
use std::alloc::Global;

/// Does what the words ask for.
fn done<'a, F: Shelf, S: Sink, D: Sink>(
    alloc: Global,
    words: &'a [String],
    shelf: &mut F,
    out: &mut S,
    aside: &mut D,
) -> Ending<'a>
    ensures { Ends (record { words = map string_bytes words.now; held = F.held shelf.old }) (record {
      read_before = F.faults shelf.old;
      read_now = F.faults shelf.new;
      out = device (S.faults out.old) (S.faults out.new) (S.written out.old) (S.written out.new);
      aside = device (D.faults aside.old) (D.faults aside.new) (D.written aside.old) (D.written aside.new);
    }) result }
{
    match request(alloc, words) {
        Ok(
            Request::Solve {
                model,
                data_files,
                brief,
            },
        ) => solved(
            alloc,
            model,
            data_files.as_slice(),
            brief,
            shelf,
            out,
            aside,
        ),
        Ok(
            Request::Check {
                model,
                data_files,
                log,
            },
        ) => checked(alloc, model, data_files.as_slice(), log, shelf, out),
        Err(RequestRefusal::Usage) => refuse(alloc, out, ErrorLine::Usage),
        Err(RequestRefusal::OutOfMemory) => refuse(alloc, out, ErrorLine::Memory),
    }
}

/// Does all that the program does, and answers the status.
///
/// `solve MODEL [DATA ...]` reads the model with its data files and puts the log of a search, which ends in the verdict; with
/// `--brief` it puts the log aside, and to the output the best solution and the verdict. `check MODEL [DATA ...] LOG` reads
/// a model and a log, and puts one line: `accepted` and the verdict that the log proves, or `refused`, the line at which
/// its replay first fails, and the cause. Where there is no such answer, a line says why.
///
/// The statuses are 0 for the verdicts `optimal` and `satisfied` and for a log that is accepted, 1 for `infeasible`, 4
/// for a log that is refused, 5 for words that ask for nothing, 6 where the model is refused, 7 where a data file is, 8
/// where something is over its limit, 10 where the shelf failed, 11 where a sink did, 12 for want of memory, and 13 for a
/// model with a real variable or a subproblem, which no search takes as yet.
pub fn run<F: Shelf, S: Sink, D: Sink>(
    alloc: Global,
    words: &[String],
    shelf: &mut F,
    out: &mut S,
    aside: &mut D,
) -> u8
    ensures { Says (record { words = map string_bytes words.now; held = F.held shelf.old }) (record {
      read_before = F.faults shelf.old;
      read_now = F.faults shelf.new;
      out = device (S.faults out.old) (S.faults out.new) (S.written out.old) (S.written out.new);
      aside = device (D.faults aside.old) (D.faults aside.new) (D.written aside.old) (D.written aside.new);
    }) result }
{
    done(alloc, words, shelf, out, aside).status()
}
