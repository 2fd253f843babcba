//! The turn of the loop: depth first, each step one line of the log.
ghost use Rattle.std.specs.Prelude.{◌≡◌, ◌≢◌, ◌<◌, ◌^◌, ◌↔◌, Some, None, pos, IsTrue, IsSome, IfOk, OnOk, unsigned_abs, map};
ghost use Rattle.sm_flat.specs.Assignments.{point_of};
ghost use Rattle.sm_step.specs.Verdicts.{parts_of};
ghost use Rattle.sm_rules.specs.declared.node.Status.TheVariants.{Open as OpenStatus};
ghost use Rattle.sm_rules.specs.Trees.{focus_of, IsRefuted};
ghost use Rattle.sm_rules.specs.Halves.{IsLastHalf};
ghost use Rattle.sm_rules.specs.Laws.{AsksForAny, LawfulVerdict};
ghost use Rattle.sm_search.specs.Fits.{IsFit, IsRunning, IsAtOpen};
ghost use Rattle.sm_search.specs.Leaves.{whole_values};
ghost use Rattle.sm_search.specs.Picks.{Splits};
ghost use Rattle.sm_search.specs.Turns.{Moves, GoesOn, HasTurned, HasEnded};

use crate::pick::pick;
use crate::refusal::WorkRefusal;
use crate::search::Search;
use sm_base::Sink;
use sm_flat::{Assignment, Flat, Literal, Sense, value};
use sm_frac::Frac;
use sm_step::{Line, Short, Verdict};
use std::alloc::{AllocError, Global};

/// What a turn came to.
#[derive(Clone, Copy, Debug, PartialEq, Eq)]
pub enum Turn {
    /// A node was closed or split.
    Again,
    /// A verdict was put.
    Ended,
}

// Branch and bound (Land and Doig, 1960), depth first, with the log as its state; search, infer and relax in one loop after
// Hooker (Integrated Methods for Optimization, 2012), where inference and relaxation are still to come:
//
//   1. Where any solution will do and there is one, the verdict is `satisfied`.
//   2. Where the focus is open, it is processed: it is closed where its floors end it, that is where no solution in it can be
//      better than the best; else a variable with several values is split, and its first half is the new focus; else all
//      variables are fixed, and the leaf is closed, by a constraint that it violates or as a solution.
//   3. Else the second half of the last node that has only one child becomes the focus.
//   4. Where no node has one child, the tree is refuted: the best is an optimum, or there is no solution.
//
// Each line that is written is allowed, and each turn leaves less to do, by the weight of the open parts of the tree.
impl Search {
    /// Splits the focus by a literal.
    #[tactic(auto, using(crate::proofs::Lines::allow_split, crate::proofs::Lines::goes_on_split))]
    fn open_first<S: Sink>(
        &mut self,
        flat: &Flat,
        sink: &mut S,
        literal: &Literal,
    ) -> Result<(), WorkRefusal>
        requires fit { IsFit flat.now self.old.state }
        requires at { IsAtOpen self.old.state }
        requires splits { Splits (focus_of self.old.state.main).store literal.now }
        ensures on { OnOk result (GoesOn self.old.state self.new.state) }
        ensures moved { Moves flat.now result self.old self.new (S.written sink.old) (S.written sink.new) (S.faults sink.old) (S.faults sink.new) }
    {
        let line = Line::Node {
            id: self.next_number(),
            parent: self.state().focus(),
            literal: *literal,
        };
        self.write(flat, sink, line)
    }

    /// Opens the second child of the last node that has one.
    #[tactic(auto, using(crate::proofs::Lines::allow_second, crate::proofs::Lines::goes_on_second))]
    fn open_second<S: Sink>(
        &mut self,
        flat: &Flat,
        sink: &mut S,
        parent: u64,
        literal: &Literal,
    ) -> Result<(), WorkRefusal>
        requires fit { IsFit flat.now self.old.state }
        requires going { IsRunning self.old.state }
        requires closed { (focus_of self.old.state.main).status ≢ OpenStatus }
        requires half { IsLastHalf self.old.state.main.nodes parent literal.now }
        ensures on { OnOk result (GoesOn self.old.state self.new.state) }
        ensures moved { Moves flat.now result self.old self.new (S.written sink.old) (S.written sink.new) (S.faults sink.old) (S.faults sink.new) }
    {
        let line = Line::Node {
            id: self.next_number(),
            parent,
            literal: *literal,
        };
        self.write(flat, sink, line)
    }

    /// Works at the focus until it is closed or has a child.
    #[tactic(auto, using(crate::proofs::Lines::all_fixed, crate::proofs::Lines::store_of, crate::proofs::Lines::store_few))]
    fn process_node<S: Sink>(&mut self, flat: &Flat, sink: &mut S) -> Result<(), WorkRefusal>
        requires fit { IsFit flat.now self.old.state }
        requires at { IsAtOpen self.old.state }
        ensures on { OnOk result (GoesOn self.old.state self.new.state) }
        ensures moved { Moves flat.now result self.old self.new (S.written sink.old) (S.written sink.new) (S.faults sink.old) (S.faults sink.new) }
    {
        if self.state().is_ended(flat) {
            return self.close_by_floor(flat, sink);
        }
        match pick(flat, self.store()) {
            Some(literal) => self.open_first(flat, sink, &literal),
            None => self.close_leaf(flat, sink),
        }
    }

    /// Writes a verdict.
    #[tactic(auto, using(crate::proofs::Lines::allow_verdict, crate::proofs::Lines::decided_of))]
    fn write_verdict<S: Sink>(
        &mut self,
        flat: &Flat,
        sink: &mut S,
        verdict: Verdict,
    ) -> Result<Turn, WorkRefusal>
        requires fit { IsFit flat.now self.old.state }
        requires going { IsRunning self.old.state }
        requires lawful { LawfulVerdict flat.now self.old.state verdict }
        ensures turned { IfOk result (HasTurned self.old.state self.new.state) }
        ensures moved { Moves flat.now result self.old self.new (S.written sink.old) (S.written sink.new) (S.faults sink.old) (S.faults sink.new) }
    {
        self.write(flat, sink, Line::Verdict(verdict))?;
        Ok(Turn::Ended)
    }

    /// The best's values, which are whole, goal by goal.
    fn best_values(&self, flat: &Flat, best: &Assignment) -> Result<Short<Frac>, AllocError>
        ensures { IfOk result (λ vs. map parts_of vs ≡ whole_values flat.now.goals (point_of best.now)) }
    {
        let mut values = Short::new(self.alloc());
        for level in 0..flat.goals().len() {
            values.push(whole(value(flat, level as u32, best).0))?;
        }
        Ok(values)
    }

    /// The verdict of a search that has nothing left to do.
    #[tactic(auto, using(crate::proofs::Lines::optimal_end, crate::proofs::Lines::infeasible_end))]
    fn last_verdict(&self, flat: &Flat) -> Result<Verdict, AllocError>
        requires fit { IsFit flat.now self.now.state }
        requires any { AsksForAny flat.now → self.now.state.best ≡ None }
        requires refuted { IsRefuted self.now.state.main }
        ensures lawful { IfOk result (LawfulVerdict flat.now self.now.state) }
    {
        match self.state().best() {
            Some(best) => {
                let values = self.best_values(flat, best)?;
                Ok(Verdict::Optimal { values })
            }
            None => Ok(Verdict::Infeasible),
        }
    }

    /// Ends a search that has nothing left to do.
    #[tactic(auto, using(crate::proofs::Moving::stays_stopped))]
    fn finish<S: Sink>(&mut self, flat: &Flat, sink: &mut S) -> Result<Turn, WorkRefusal>
        requires fit { IsFit flat.now self.old.state }
        requires going { IsRunning self.old.state }
        requires any { AsksForAny flat.now → self.old.state.best ≡ None }
        requires refuted { IsRefuted self.old.state.main }
        ensures turned { IfOk result (HasTurned self.old.state self.new.state) }
        ensures moved { Moves flat.now result self.old self.new (S.written sink.old) (S.written sink.new) (S.faults sink.old) (S.faults sink.new) }
    {
        let verdict = self.last_verdict(flat)?;
        self.write_verdict(flat, sink, verdict)
    }

    /// Whether any solution will do, and there is one.
    fn is_satisfied(&self, flat: &Flat) -> bool
        ensures { IsTrue result ↔ (AsksForAny flat.now × IsSome self.now.state.best) }
    {
        asks_for_any(flat) && self.state().best().is_some()
    }

    /// Works until a node is closed or has a child, or ends.
    #[tactic(auto, using(crate::proofs::Lines::refuted_end, crate::proofs::Lines::satisfied_end))]
    fn turn<S: Sink>(&mut self, flat: &Flat, sink: &mut S) -> Result<Turn, WorkRefusal>
        requires fit { IsFit flat.now self.old.state }
        requires going { IsRunning self.old.state }
        ensures turned { IfOk result (HasTurned self.old.state self.new.state) }
        ensures moved { Moves flat.now result self.old self.new (S.written sink.old) (S.written sink.new) (S.faults sink.old) (S.faults sink.new) }
    {
        if self.is_satisfied(flat) {
            return self.write_verdict(flat, sink, Verdict::Satisfied);
        }
        if self.is_at_open() {
            self.process_node(flat, sink)?;
            return Ok(Turn::Again);
        }
        match self.state().half() {
            Some((parent, literal)) => {
                self.open_second(flat, sink, parent, &literal)?;
                Ok(Turn::Again)
            }
            None => self.finish(flat, sink),
        }
    }

    /// Takes turns until the verdict.
    #[tactic(auto, using(crate::proofs::Moving::stays, crate::proofs::Moving::moves_more))]
    pub(crate) fn run<S: Sink>(&mut self, flat: &Flat, sink: &mut S) -> Result<(), WorkRefusal>
        requires fit { IsFit flat.now self.old.state }
        requires going { IsRunning self.old.state }
        ensures ended { OnOk result (HasEnded self.new.state) }
        ensures moved { Moves flat.now result self.old self.new (S.written sink.old) (S.written sink.new) (S.faults sink.old) (S.faults sink.new) }
    {
        loop {
            match self.turn(flat, sink)? {
                Turn::Again => {}
                Turn::Ended => return Ok(()),
            }
        }
    }
}

/// A whole number as a fraction.
fn whole(number: i128) -> Frac
    requires { unsigned_abs number < 2 ^ 127 }
    ensures { parts_of result ≡ (number, pos 1) }
{
    Frac::new(number, 1).unwrap()
}

/// Whether any solution will do.
fn asks_for_any(flat: &Flat) -> bool
    ensures { IsTrue result ↔ AsksForAny flat.now }
{
    match flat.goals().first() {
        Some(goal) => goal.sense == Sense::Satisfy,
        None => true,
    }
}
