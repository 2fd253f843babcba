//! The check of a log.
ghost use Rattle.std.specs.Prelude.{◌≡◌, ◌≤◌, ◌<◌, ◌+◌, ◌-◌, ◌^◌, ℕ, List, length, take, true, false, Some, None, IfOk, IfErr, OnOk};
ghost use Rattle.sm_rules.specs.Sound.{IsOf};
ghost use Rattle.sm_rules.specs.declared.cause.Cause.TheVariants.{End};
ghost use Rattle.sm_check.specs.declared.refusal.CheckRefusal.TheVariants.{Refused};
ghost use Rattle.std.specs.Prelude.{All, map};
ghost use Rattle.std.specs.List.{flat_map};
ghost use Rattle.sm_step.specs.declared.line.Line.{Line as Step};
ghost use Rattle.sm_step.specs.declared.verdict.Verdict.{Verdict as Said};
ghost use Rattle.sm_rules.specs.declared.cause.Cause.{Cause as Reason};
ghost use Rattle.sm_step.specs.Text.{text_of};
ghost use Rattle.sm_step.specs.Grammar.{IsLine};
ghost use Rattle.sm_check.specs.Replays.{cut, EndsIn, FailsAt};
ghost use Rattle.sm_check.specs.Checks.{Proves, OfFile, IsFeedCause, IsCheckCause};
ghost use Rattle.sm_check.specs.Readings.{first_sight, IsAt, IsAtEnd, IsApplied, IsApplyCause, unread};
ghost use Rattle.sm_check.specs.Feeds.{IsFront};
ghost use Rattle.sm_flat.specs.Models.{FlatModel};

use crate::feed::Feed;
use crate::refusal::CheckRefusal;
use sm_base::{OutOfMemory, Shelf};
use sm_flat::Flat;
use sm_rules::{ApplyRefusal, Cause, LogState};
use sm_step::{LineRefusal, Verdict, read};
use std::alloc::Global;
use std::marker::Model;

/// The lines of a log that were read so far.
#[derive(Drop)]
struct Reading {
    alloc: Global,
    state: LogState,
    feed: Feed,
    /// How many lines were read.
    lines: u64,
}

impl Model for Reading {
    ghost use Rattle.sm_check.specs.Readings.{Sight};

    ghost Value = { Sight };

    ghost view = { λ r. record { state = r.state; fed = r.feed; count = r.lines } };
}

impl Reading {
    /// A reading that has read nothing.
    fn new(alloc: Global, flat: &Flat) -> Result<Reading, OutOfMemory>
        ensures first { IfOk result (λ r. r ≡ first_sight flat.now) }
        ensures of { IfOk result (λ r. IsOf flat.now r.state) }
    {
        let state = LogState::new(alloc, flat)?;
        Ok(Reading {
            alloc,
            state,
            feed: Feed::new(alloc),
            lines: 0,
        })
    }

    /// The refusal of the next line.
    fn refused(&self, cause: Cause) -> CheckRefusal
        requires { self.now.count < 2 ^ 64 - 1 }
        ensures { result ≡ Refused (self.now.count + 1) cause }
    {
        CheckRefusal::Refused {
            line: self.lines + 1,
            cause,
        }
    }

    /// Applies the line that these many bytes are.
    fn apply(&mut self, flat: &Flat, count: usize) -> Result<(), CheckRefusal>
        requires of { IsOf flat.now self.old.state }
        requires count { self.old.count < 2 ^ 64 - 1 }
        requires within { count ≤ length self.old.fed.left }
        ensures ok { OnOk result (IsApplied flat.now (take count self.old.fed.left) self.old self.new) }
        ensures of { IsOf flat.now self.new.state }
        ensures cause { IfErr result (IsApplyCause flat.now self.old.state (take count self.old.fed.left) (self.old.count + 1)) }
    {
        let line = match read(self.alloc, &self.feed.left()[..count]) {
            Ok(line) => line,
            Err(LineRefusal::BadLine) => return Err(self.refused(Cause::Grammar)),
            Err(LineRefusal::OutOfMemory) => return Err(CheckRefusal::OutOfMemory),
        };
        match self.state.apply(flat, &line) {
            Ok(()) => {}
            Err(ApplyRefusal::Refused { cause }) => return Err(self.refused(cause)),
            Err(ApplyRefusal::OutOfMemory) => return Err(CheckRefusal::OutOfMemory),
        }
        self.feed.take(count);
        self.lines += 1;
        Ok(())
    }

    #[tactic(auto, using(crate::proofs::Readings::at_ready, crate::proofs::Readings::same_unread))]
    /// Fetches until a whole line is left at the front, or the file is at its end, or what is left is more than its line may
    /// have: how many bytes the line has then, or what is left of it has.
    fn ready<F: Shelf>(&mut self, shelf: &mut F, name: &str) -> Result<usize, CheckRefusal>
        requires { self.old.fed.place ≤ 2 ^ 40 }
        ensures at { OnOk result ((m : FlatModel) → IsAt m (F.held shelf.old name.now) self.old → IsAt m (F.held shelf.old name.now) self.new) }
        ensures front { IfOk result (IsFront (F.held shelf.old name.now) self.new.fed) }
        ensures within { IfOk result (λ n. n ≤ length self.new.fed.left) }
        ensures unread { OnOk result (unread self.new.fed ≡ unread self.old.fed) }
        ensures cause { IfErr result (IsFeedCause (F.held shelf.old name.now) (F.faults shelf.old) (F.faults shelf.new)) }
        ensures same { (q : List ℕ) → F.held shelf.new q ≡ F.held shelf.old q }
        ensures later { F.faults shelf.old ≤ F.faults shelf.new }
    {
        self.feed.next_piece(shelf, name)
    }

    #[tactic(auto, using(crate::proofs::Readings::at_applied, crate::proofs::Readings::at_end, crate::proofs::Readings::feed_cause, crate::proofs::Readings::apply_cause, crate::proofs::Readings::falls, crate::proofs::Readings::few_lines))]
    /// Reads and applies one line, if there is one more.
    fn step<F: Shelf>(
        &mut self,
        flat: &Flat,
        shelf: &mut F,
        name: &str,
    ) -> Result<bool, CheckRefusal>
        requires at { IsAt flat.now (F.held shelf.old name.now) self.old }
        ensures at { OnOk result (IsAt flat.now (F.held shelf.old name.now) self.new) }
        ensures end { IfOk result (λ more. more ≡ false → IsAtEnd (F.held shelf.old name.now) self.new.fed) }
        ensures falls { IfOk result (λ more. more ≡ true → unread self.new.fed < unread self.old.fed) }
        ensures cause { IfErr result (IsCheckCause flat.now (F.held shelf.old name.now) (F.faults shelf.old) (F.faults shelf.new)) }
        ensures same { (q : List ℕ) → F.held shelf.new q ≡ F.held shelf.old q }
        ensures later { F.faults shelf.old ≤ F.faults shelf.new }
    {
        let count = match self.ready(shelf, name) {
            Ok(count) => count,
            Err(refusal) => return Err(refusal),
        };
        if count == 0 {
            return Ok(false);
        }
        match self.apply(flat, count) {
            Ok(()) => Ok(true),
            Err(refusal) => Err(refusal),
        }
    }

    /// What a log comes to that ends here.
    fn conclude(self) -> Result<Verdict, CheckRefusal>
        requires { self.count < 2 ^ 64 - 1 }
        ensures ok { IfOk result (λ v. self.state.verdict ≡ Some v) }
        ensures err { IfErr result (λ r. (self.state.verdict ≡ None) × (r ≡ Refused (self.count + 1) End)) }
    {
        let refusal = self.refused(Cause::End);
        match self.state.into_verdict() {
            Some(verdict) => Ok(verdict),
            None => Err(refusal),
        }
    }
}

#[tactic(auto, using(crate::proofs::Readings::at_start, crate::proofs::Readings::proves_end, crate::proofs::Readings::fails_end))]
/// Whether a file of the shelf is a log that proves a verdict of the model, and which.
///
/// # Errors
///
/// - `Refused`: exactly where the replay of the file fails, with the line where it first does, from 1, and the cause.
/// - `ReadFault`: only where the shelf's count of faults rose.
/// - `LogTooLong`: only where the file has more than 2^40 bytes.
/// - `OutOfMemory`.
pub fn check<F: Shelf>(
    alloc: Global,
    flat: &Flat,
    shelf: &mut F,
    name: &str,
) -> Result<Verdict, CheckRefusal>
    ensures accepted { IfOk result (λ v. OfFile (F.held shelf.old name.now) (λ log. Proves flat.now log v)) }
    ensures refused { IfErr result (IsCheckCause flat.now (F.held shelf.old name.now) (F.faults shelf.old) (F.faults shelf.new)) }
    ensures same { (q : List ℕ) → F.held shelf.new q ≡ F.held shelf.old q }
    ensures later { F.faults shelf.old ≤ F.faults shelf.new }
{
    let mut reading = Reading::new(alloc, flat)?;
    loop {
        if !reading.step(flat, shelf, name)? {
            return reading.conclude();
        }
    }
}

/// Laws of outcomes: the bytes of a log end in one verdict at most, fail at one line for one cause at most, and not both;
/// and the texts of lines that replay to a verdict are a log that ends in it.
pub fn one_outcome()
    ensures verdict { (m : FlatModel) (log : List ℕ) (v w : Said) → EndsIn m log v → EndsIn m log w → v ≡ w }
    ensures apart { (m : FlatModel) (log : List ℕ) (v : Said) (k : ℕ) (c : Reason) → EndsIn m log v → FailsAt m log k c → ⊥ }
    ensures refusal { (m : FlatModel) (log : List ℕ) (j k : ℕ) (c d : Reason) → FailsAt m log j c → FailsAt m log k d → (j ≡ k) × (c ≡ d) }
    ensures texts { (lines : List Step) → All IsLine lines → cut (flat_map text_of lines) ≡ map text_of lines }
{}
