//! A search at its place: the state of the log that was put so far, and the one way a line joins it.
ghost use Rattle.std.specs.Prelude.{◌≡◌, ◌≤◌, ◌<◌, ◌+◌, ◌^◌, ◌↔◌, [], Some, Err, IsTrue, IfOk, IfErr, OnOk, OnErr, length, vec_len};
ghost use Rattle.std.specs.Io.KnownBytes.{Appends};
ghost use Rattle.sm_step.specs.Text.{text_of};
ghost use Rattle.sm_rules.specs.declared.node.Status.TheVariants.{Open as OpenStatus};
ghost use Rattle.sm_rules.specs.Trees.{focus_of};
ghost use Rattle.sm_rules.specs.Laws.{Allowed};
ghost use Rattle.sm_rules.specs.Transitions.{after};
ghost use Rattle.sm_rules.specs.Sound.{IsOf};
ghost use Rattle.sm_search.specs.Fits.{AreDiscrete, IsFit, IsOwn, IsRunning};
ghost use Rattle.sm_search.specs.Went.{begin};
ghost use Rattle.sm_search.specs.Turns.{Moves, HasEnded};
ghost use Rattle.sm_search.specs.declared.refusal.WorkRefusal.TheVariants.{OutOfMemory as NoMemory};

use crate::refusal::WorkRefusal;
use crate::solved::Solved;
use sm_base::{OutOfMemory, Sink, put_all};
use sm_flat::Flat;
use sm_rules::LogState;
use sm_step::{Line, print};
use sm_store::Store;
use std::alloc::Global;
use std::marker::Model;

/// How many bytes a log has at most.
const LOG_LIMIT: u64 = 1 << 40;

/// The state of the log that was put so far, and its length.
#[derive(Drop)]
pub struct Search {
    alloc: Global,
    state: LogState,
    bytes: u64,
}

impl Model for Search {
    ghost use Rattle.sm_search.specs.Went.{Place, IsCounted};

    ghost Value = { Place };

    ghost view = { λ s. record { state = s.state; bytes = s.bytes } };

    ghost invariant = { λ s. IsCounted (record { state = s.state; bytes = s.bytes }) };
}

impl Search {
    /// A search that has put nothing.
    #[tactic(auto, using(crate::proofs::Fits::fit_start))]
    pub(crate) fn new(alloc: Global, flat: &Flat) -> Result<Search, WorkRefusal>
        requires { AreDiscrete flat.now.vars }
        ensures begin { IfOk result (λ s. s ≡ begin flat.now) }
        ensures fit { IfOk result (λ s. IsFit flat.now s.state) }
        ensures memory { IfErr result (λ e. e ≡ NoMemory) }
    {
        let state = LogState::new(alloc, flat)?;
        Ok(Search {
            alloc,
            state,
            bytes: 0,
        })
    }

    /// Steps by an allowed line, whose text brings the log to this length.
    #[tactic(auto, using(crate::proofs::Goings::counted_after))]
    fn step(&mut self, flat: &Flat, line: &Line, bytes: u64) -> Result<(), OutOfMemory>
        requires of { IsOf flat.now self.old.state }
        requires allowed { Allowed flat.now self.old.state line.now }
        requires more { self.old.bytes < bytes }
        requires limit { bytes ≤ 2 ^ 40 }
        ensures ok { OnOk result (self.new ≡ record { state = after flat.now self.old.state line.now; bytes = bytes }) }
        ensures err { OnErr result (self.new ≡ self.old) }
        ensures of { IsOf flat.now self.new.state }
    {
        self.state.step(flat, line)?;
        self.bytes = bytes;
        Ok(())
    }

    /// Puts an allowed line and steps by it. The room that it takes is had before it is put.
    #[tactic(auto, using(crate::proofs::Fits::fit_after, crate::proofs::Goings::stopped_none, crate::proofs::Goings::stopped_long))]
    fn put<S: Sink>(&mut self, flat: &Flat, sink: &mut S, line: &Line) -> Result<(), WorkRefusal>
        requires fit { IsFit flat.now self.old.state }
        requires allowed { Allowed flat.now self.old.state line.now }
        requires own { IsOwn self.old.state line.now }
        ensures state { OnOk result (self.new.state ≡ after flat.now self.old.state line.now) }
        ensures moved { Moves flat.now result self.old self.new (S.written sink.old) (S.written sink.new) (S.faults sink.old) (S.faults sink.new) }
        ensures unput { result ≡ Err NoMemory → Appends (S.written sink.old) (S.written sink.new) [] }
    {
        let text = text_of(self.alloc, line)?;
        let bytes = self.bytes + text.len() as u64;
        if bytes > LOG_LIMIT {
            return Err(WorkRefusal::LogTooLong);
        }
        self.step(flat, line, bytes)?;
        match put_all(sink, text.as_slice()) {
            Ok(()) => Ok(()),
            Err(_) => Err(WorkRefusal::WriteFault),
        }
    }

    /// Puts an allowed line that is given away, and steps by it.
    pub(crate) fn write<S: Sink>(
        &mut self,
        flat: &Flat,
        sink: &mut S,
        line: Line,
    ) -> Result<(), WorkRefusal>
        requires fit { IsFit flat.now self.old.state }
        requires allowed { Allowed flat.now self.old.state line }
        requires own { IsOwn self.old.state line }
        ensures state { OnOk result (self.new.state ≡ after flat.now self.old.state line) }
        ensures moved { Moves flat.now result self.old self.new (S.written sink.old) (S.written sink.new) (S.faults sink.old) (S.faults sink.new) }
        ensures unput { result ≡ Err NoMemory → Appends (S.written sink.old) (S.written sink.new) [] }
    {
        self.put(flat, sink, &line)
    }

    /// Puts the first line.
    #[tactic(auto, using(crate::proofs::Lines::allow_header))]
    pub(crate) fn begin<S: Sink>(&mut self, flat: &Flat, sink: &mut S) -> Result<(), WorkRefusal>
        requires begin { self.old ≡ begin flat.now }
        requires fit { IsFit flat.now self.old.state }
        ensures running { OnOk result (IsRunning self.new.state) }
        ensures moved { Moves flat.now result self.old self.new (S.written sink.old) (S.written sink.new) (S.faults sink.old) (S.faults sink.new) }
        ensures unput { result ≡ Err NoMemory → Appends (S.written sink.old) (S.written sink.new) [] }
    {
        self.write(flat, sink, Line::Header { version: 1 })
    }

    /// The verdict and the best solution of a search that ended, in its place.
    pub(crate) fn into_solved(self) -> Solved
        requires { HasEnded self.state }
        ensures verdict { self.state.verdict ≡ Some result.verdict }
        ensures best { self.state.best ≡ result.best }
    {
        let (verdict, best) = self.state.into_end();
        match verdict {
            Some(verdict) => Solved { verdict, best },
            None => unreachable!(),
        }
    }

    /// Where new memory comes from.
    pub(crate) fn alloc(&self) -> Global {
        self.alloc
    }

    /// The state of the log.
    pub(crate) fn state(&self) -> &LogState
        ensures { result.now ≡ self.now.state }
    {
        &self.state
    }

    /// The number of the next node.
    pub(crate) fn next_number(&self) -> u64
        ensures { result ≡ self.now.state.main.count }
    {
        self.state.nodes() + 1
    }

    /// Whether the focus is open.
    pub(crate) fn is_at_open(&self) -> bool
        ensures { IsTrue result ↔ ((focus_of self.now.state.main).status ≡ OpenStatus) }
    {
        self.state.store().is_some()
    }

    /// The store of the focus.
    pub(crate) fn store(&self) -> &Store
        requires { (focus_of self.now.state.main).status ≡ OpenStatus }
        ensures { result.now ≡ (focus_of self.now.state.main).store }
    {
        match self.state.store() {
            Some(store) => store,
            None => unreachable!(),
        }
    }
}

/// The text of a line.
fn text_of(alloc: Global, line: &Line) -> Result<Vec<u8>, OutOfMemory>
    ensures text { IfOk result (λ t. t.items ≡ text_of line.now) }
    ensures len { IfOk result (λ t. vec_len t ≡ length (text_of line.now)) }
{
    let mut text = Vec::new(alloc);
    print(line, &mut text)?;
    Ok(text)
}
