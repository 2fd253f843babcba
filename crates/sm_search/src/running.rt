//! A whole search.
ghost use Rattle.std.specs.Prelude.{◌≡◌, ◌≤◌, ◌↔◌, false, [], Err, IsTrue, IfOk, IfErr};
ghost use Rattle.std.specs.Io.KnownBytes.{Appends};
ghost use Rattle.sm_search.specs.Went.{begin, Stopped};
ghost use Rattle.sm_search.specs.Turns.{HasSolved};
ghost use Rattle.sm_search.specs.Fits.{AreDiscrete};
ghost use Rattle.sm_search.specs.Refusals.{HasReal, IfHalted};
ghost use Rattle.sm_search.specs.declared.refusal.WorkRefusal.TheVariants.{OutOfMemory as NoMemory};

use crate::refusal::WorkRefusal;
use crate::search::Search;
use crate::solved::Solved;
use sm_base::Sink;
use sm_flat::{Flat, Var, VarKind};
use std::alloc::Global;

/// A search that stopped before its verdict.
#[derive(Clone, Copy, Debug, PartialEq, Eq)]
pub struct Halt {
    pub refusal: WorkRefusal,
    /// Whether the first line was put whole.
    pub begun: bool,
}

/// Why a model has no verdict.
#[derive(Clone, Copy, Debug, PartialEq, Eq)]
pub enum SolveRefusal {
    /// The model has a real variable, and the search can't yet finish a node where all others are fixed.
    RealVariable,
    /// The search stopped before its verdict.
    Halted(Halt),
}

/// Whether some variable is real.
fn has_real(vars: &[Var]) -> bool
    ensures { IsTrue result ↔ HasReal vars.now }
{
    vars.iter().any(|var| var.kind == VarKind::Real)
}

/// Searches a model that has no real variable.
#[tactic(auto, using(crate::proofs::Endings::stopped_first, crate::proofs::Endings::stopped_later))]
fn solve_discrete<S: Sink>(alloc: Global, flat: &Flat, sink: &mut S) -> Result<Solved, Halt>
    requires { AreDiscrete flat.now.vars }
    ensures solved { IfOk result (HasSolved flat.now (S.written sink.old) (S.written sink.new)) }
    ensures stopped { IfErr result (λ h. Stopped flat.now (begin flat.now) (S.written sink.old) (S.written sink.new) (S.faults sink.old) (S.faults sink.new) h.refusal) }
    ensures unput { IfErr result (λ h. h.begun ≡ false → h.refusal ≡ NoMemory → Appends (S.written sink.old) (S.written sink.new) []) }
    ensures later { S.faults sink.old ≤ S.faults sink.new }
{
    let mut search = match Search::new(alloc, flat) {
        Ok(search) => search,
        Err(refusal) => {
            return Err(Halt {
                refusal,
                begun: false,
            });
        }
    };
    if let Err(refusal) = search.begin(flat, sink) {
        return Err(Halt {
            refusal,
            begun: false,
        });
    }
    match search.run(flat, sink) {
        Ok(()) => Ok(search.into_solved()),
        Err(refusal) => Err(Halt {
            refusal,
            begun: true,
        }),
    }
}

/// Searches a model, and puts the lines of its log as it goes. The log ends in a verdict that is true of the model, which is
/// answered with the last solution of the log.
///
/// # Errors
///
/// - `RealVariable`: exactly where the model has a real variable. Nothing is put then.
/// - `Halted`, by
///   - `WriteFault`: only where the sink's count of faults rose.
///   - `LogTooLong`: only where the next line would bring the log above 2^40 bytes.
///   - `OutOfMemory`.
///
///   What was put is then some lines, each allowed in its turn, and nothing or a front of one more.
#[tactic(auto, using(crate::proofs::Endings::discrete_of))]
pub fn solve<S: Sink>(alloc: Global, flat: &Flat, sink: &mut S) -> Result<Solved, SolveRefusal>
    ensures real { (result ≡ Err SolveRefusal.RealVariable) ↔ HasReal flat.now.vars }
    ensures unbegun { result ≡ Err SolveRefusal.RealVariable → sink.new ≡ sink.old }
    ensures solved { IfOk result (HasSolved flat.now (S.written sink.old) (S.written sink.new)) }
    ensures stopped { IfErr result (λ r. IfHalted r (λ h. Stopped flat.now (begin flat.now) (S.written sink.old) (S.written sink.new) (S.faults sink.old) (S.faults sink.new) h.refusal)) }
    ensures unput { IfErr result (λ r. IfHalted r (λ h. h.begun ≡ false → h.refusal ≡ NoMemory → Appends (S.written sink.old) (S.written sink.new) [])) }
    ensures later { S.faults sink.old ≤ S.faults sink.new }
{
    if has_real(flat.vars()) {
        return Err(SolveRefusal::RealVariable);
    }
    match solve_discrete(alloc, flat, sink) {
        Ok(solved) => Ok(solved),
        Err(halt) => Err(SolveRefusal::Halted(halt)),
    }
}
