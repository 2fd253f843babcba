//! What a check says of a log.
ghost use Rattle.std.specs.Prelude.{◌≡◌, ◌++◌, codes, pos, IfOk};
ghost use Rattle.sm_base.specs.Whole.{whole_text};
ghost use Rattle.sm_step.specs.Text.{verdict_text};
ghost use Rattle.sm_reports.specs.Checks.{accepted_line, cause_word, refused_line};

use sm_base::{OutOfMemory, push_whole};
use sm_rules::Cause;
use sm_step::{Verdict, push_verdict};
use std::alloc::Global;

/// The word of a cause.
fn cause_word(cause: Cause) -> &'static [u8]
    ensures { result.now ≡ cause_word cause }
{
    match cause {
        Cause::Grammar => b"grammar",
        Cause::Order => b"order",
        Cause::Law => b"law",
        Cause::Verdict => b"verdict",
        Cause::End => b"end",
    }
}

/// The line that tells that a log is refused.
///
/// # Errors
///
/// `OutOfMemory`.
pub fn refused_line(alloc: Global, line: u64, cause: Cause) -> Result<Vec<u8>, OutOfMemory>
    ensures { IfOk result (λ t. t.items ≡ refused_line line cause) }
{
    let mut text = Vec::new(alloc);
    text.extend_from_slice(b"refused ")?;
    push_whole(&mut text, i128::from(line))?;
    text.extend_from_slice(b" ")?;
    text.extend_from_slice(cause_word(cause))?;
    text.extend_from_slice(b"\n")?;
    Ok(text)
}

/// The line that tells that a log is accepted.
///
/// # Errors
///
/// `OutOfMemory`.
pub fn accepted_line(alloc: Global, verdict: &Verdict) -> Result<Vec<u8>, OutOfMemory>
    ensures { IfOk result (λ t. t.items ≡ accepted_line verdict.now) }
{
    let mut text = Vec::new(alloc);
    text.extend_from_slice(b"accepted ")?;
    push_verdict(&mut text, verdict)?;
    text.extend_from_slice(b"\n")?;
    Ok(text)
}
