//! A leaf: a node whose variables are all fixed.
ghost use Rattle.std.specs.Prelude.{◌≡◌, ◌<◌, ◌^◌, pos, IfOk, IfSome, IfNone, OnOk, length};
ghost use Rattle.sm_rules.specs.Trees.{focus_of};
ghost use Rattle.sm_rules.specs.Laws.{BeatsBest};
ghost use Rattle.sm_rules.specs.Violations.{IsViolated};
ghost use Rattle.sm_search.specs.Fits.{IsFit, IsAtOpen};
ghost use Rattle.sm_search.specs.Leaves.{AreAllFixed, first_values, IsSolvedLeaf, FailsConstraint, HoldsAll};
ghost use Rattle.sm_search.specs.Turns.{Moves, GoesOn, IsReached};

use crate::refusal::WorkRefusal;
use crate::search::Search;
use sm_base::Sink;
use sm_flat::{Assignment, Flat, Values, holds};
use sm_step::{Line, Short};
use sm_store::Store;
use sqlite_items::Items;
use std::alloc::{AllocError, Global};

/// The least value of each variable.
pub(crate) fn first_values(alloc: Global, store: &Store) -> Result<Items<i128>, AllocError>
    requires { length store.now < 2 ^ 32 }
    ensures { IfOk result (λ vs. vs ≡ first_values store.now) }
{
    let mut values = Vec::with_capacity(alloc, store.len())?;
    for i in 0..store.len() {
        values.push(store.numerator(i as u32))?;
    }
    Ok(Items::from_vec(values))
}

/// The first constraint that fails at an assignment.
pub(crate) fn first_failing(flat: &Flat, a: &Assignment) -> Option<u32>
    ensures some { IfSome result (λ k. FailsConstraint flat.now a.now k) }
    ensures none { IfNone result (HoldsAll flat.now a.now) }
{
    for k in 0..flat.constraints().len() {
        if !holds(flat, k as u32, a) {
            return Some(k as u32);
        }
    }
    None
}

impl Search {
    /// Closes the focus, whose floors end it.
    #[tactic(auto, using(crate::proofs::Lines::allow_close, crate::proofs::Lines::goes_on_close))]
    pub(crate) fn close_by_floor<S: Sink>(
        &mut self,
        flat: &Flat,
        sink: &mut S,
    ) -> Result<(), WorkRefusal>
        requires fit { IsFit flat.now self.old.state }
        requires at { IsAtOpen self.old.state }
        requires beats { BeatsBest flat.now (focus_of self.old.state.main).floors self.old.state.best }
        ensures on { OnOk result (GoesOn self.old.state self.new.state) }
        ensures moved { Moves flat.now result self.old self.new (S.written sink.old) (S.written sink.new) (S.faults sink.old) (S.faults sink.new) }
    {
        self.write(flat, sink, Line::CloseFloor)
    }

    /// Closes the focus, which violates constraint k.
    #[tactic(auto, using(crate::proofs::Lines::allow_violated, crate::proofs::Lines::goes_on_violated))]
    fn close_violated<S: Sink>(
        &mut self,
        flat: &Flat,
        sink: &mut S,
        k: u32,
    ) -> Result<(), WorkRefusal>
        requires fit { IsFit flat.now self.old.state }
        requires at { IsAtOpen self.old.state }
        requires violated { IsViolated flat.now (focus_of self.old.state.main).store k }
        ensures on { OnOk result (GoesOn self.old.state self.new.state) }
        ensures moved { Moves flat.now result self.old self.new (S.written sink.old) (S.written sink.new) (S.faults sink.old) (S.faults sink.new) }
    {
        self.write(flat, sink, Line::Violated { k })
    }

    /// The values of the focus, whose variables are all fixed.
    #[tactic(auto, using(crate::proofs::Leaves::assignment_leaf, crate::proofs::Lines::store_of, crate::proofs::Lines::store_few))]
    fn point(&self, flat: &Flat) -> Result<Assignment, AllocError>
        requires fit { IsFit flat.now self.now.state }
        requires at { IsAtOpen self.now.state }
        requires fixed { AreAllFixed (focus_of self.now.state.main).store }
        ensures { IfOk result (λ a. a ≡ record { denominator = pos 1; values = first_values (focus_of self.now.state.main).store }) }
    {
        let values = first_values(self.alloc(), self.store())?;
        Ok(Assignment::new(1, values))
    }

    /// Writes the values of the focus as a solution, where they are better than the best.
    #[tactic(auto, using(crate::proofs::Moving::stays, crate::proofs::Moving::stays_stopped))]
    fn write_better<S: Sink>(
        &mut self,
        flat: &Flat,
        sink: &mut S,
        point: &Assignment,
    ) -> Result<(), WorkRefusal>
        requires fit { IsFit flat.now self.old.state }
        requires at { IsAtOpen self.old.state }
        requires leaf { IsSolvedLeaf flat.now (focus_of self.old.state.main).store point.now }
        ensures reached { OnOk result (IsReached flat.now self.old.state self.new.state) }
        ensures moved { Moves flat.now result self.old self.new (S.written sink.old) (S.written sink.new) (S.faults sink.old) (S.faults sink.new) }
    {
        if !self.state().is_better(flat, point) {
            return Ok(());
        }
        let values = Short::from_slice(self.alloc(), point.values())?;
        self.write(
            flat,
            sink,
            Line::Sol {
                denominator: 1,
                values,
            },
        )
    }

    /// Closes the focus, whose variables are all fixed: it violates a constraint, or its values are a solution, which is written
    /// where it is better than the best, and then its floors end it.
    #[tactic(auto, using(crate::proofs::Moving::stays_stopped, crate::proofs::Moving::moves_more, crate::proofs::Lines::violated_at, crate::proofs::Lines::goes_on_reached))]
    pub(crate) fn close_leaf<S: Sink>(
        &mut self,
        flat: &Flat,
        sink: &mut S,
    ) -> Result<(), WorkRefusal>
        requires fit { IsFit flat.now self.old.state }
        requires at { IsAtOpen self.old.state }
        requires fixed { AreAllFixed (focus_of self.old.state.main).store }
        ensures on { OnOk result (GoesOn self.old.state self.new.state) }
        ensures moved { Moves flat.now result self.old self.new (S.written sink.old) (S.written sink.new) (S.faults sink.old) (S.faults sink.new) }
    {
        let point = self.point(flat)?;
        match first_failing(flat, &point) {
            Some(k) => self.close_violated(flat, sink, k),
            None => {
                self.write_better(flat, sink, &point)?;
                self.close_by_floor(flat, sink)
            }
        }
    }
}
