//! What is told of a run.
ghost use Rattle.sm_run.specs.declared.ending.Ending.TheVariants as ending;
ghost use Rattle.sm_run.specs.Endings.{early_text};
ghost use Rattle.sm_run.specs.Telling.{device, IsTold, TellsError};

use crate::ending::Ending;
use sm_base::{Sink, put_all};
use sm_reports::{ErrorLine, error_line, memory_line, read_line, usage_line};
use std::alloc::Global;

/// Puts what is due. The run ends with this ending then, or untold.
pub(crate) fn tell<'a, S: Sink>(out: &mut S, text: &[u8], ending: Ending<'a>) -> Ending<'a>
    ensures { IsTold (device (S.faults out.old) (S.faults out.new) (S.written out.old) (S.written out.new)) text.now ending.entry result }
{
    match put_all(out, text) {
        Ok(()) => ending,
        Err(_) => Ending::Untold,
    }
}

/// Tells why there is no answer; where memory for that is wanting, tells that.
pub(crate) fn refuse<'a, S: Sink>(alloc: Global, out: &mut S, error: ErrorLine<'a>) -> Ending<'a>
    ensures { TellsError error.entry (device (S.faults out.old) (S.faults out.new) (S.written out.old) (S.written out.new)) result }
{
    match error {
        ErrorLine::Usage => tell(out, usage_line(), Ending::Refused(error)),
        ErrorLine::Read => tell(out, read_line(), Ending::Refused(error)),
        ErrorLine::Memory => tell(out, memory_line(), Ending::Refused(error)),
        _ => match error_line(alloc, &error) {
            Ok(line) => tell(out, line.as_slice(), Ending::Refused(error)),
            Err(_) => tell(out, memory_line(), Ending::Refused(ErrorLine::Memory)),
        },
    }
}

/// Tells that the model has a real variable or a subproblem.
pub(crate) fn tell_early<'a, S: Sink>(out: &mut S) -> Ending<'a>
    ensures { IsTold (device (S.faults out.old) (S.faults out.new) (S.written out.old) (S.written out.new)) early_text ending.Early result }
{
    tell(out, b"error early\n", Ending::Early)
}
