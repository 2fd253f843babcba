//! The state of a log, and its step by one line.
ghost use Rattle.std.specs.Prelude.{◌≡◌, ◌↔◌, ◌+◌, ℕ, Bool, true, All, Some, IsTrue, IsSome, IfOk, OnOk, OnErr, IfErr, IfSome, IfNone, length, slice_get};
ghost use Rattle.std.specs.Option.{option_copied, option_map};
ghost use Rattle.sm_flat.specs.Assignments.{point_of};
ghost use Rattle.sm_flat.specs.Assignments.{IsAssignment};
ghost use Rattle.sm_flat.specs.Goals.{IsBetter};
ghost use Rattle.sm_step.specs.Verdicts.{parts_of, IsTrueOf};
ghost use Rattle.sm_rules.specs.Nodes.{NodeView, LawfulChild, TakesChild};
ghost use Rattle.sm_rules.specs.Trees.{node_at, focus_of, IsRefuted};
ghost use Rattle.sm_rules.specs.Halves.{HasOneChild, IsLastHalf};
ghost use Rattle.sm_rules.specs.Violations.{IsViolated};
ghost use Rattle.sm_rows.specs.Inferences.{IsLawfulInference};
ghost use Rattle.sm_rules.specs.Orders.{AtOpenFocus, NextChild, IsInOrder, IsDue};
ghost use Rattle.sm_rules.specs.Laws.{BeatsBest, Lawful, LawfulVerdict, Allowed};
ghost use Rattle.sm_rules.specs.Transitions.{after, start};
ghost use Rattle.sm_rules.specs.Sound.{IsOf, Sound, named};
ghost use Rattle.sm_step.specs.declared.verdict.Verdict.{Verdict as SaidVerdict};
ghost use Rattle.sm_step.specs.declared.line.Line.TheVariants.{Verdict as SaysVerdict};
ghost use Rattle.sm_rules.specs.Refusals.{IsRefusedBy};

use crate::cause::Cause;
use crate::last_line::LastLine;
use crate::node::Status;
use crate::tree::Tree;
use crate::{laws, violation};
use sm_base::OutOfMemory;
use sm_flat::{Assignment, Flat, Literal};
use sm_frac::Frac;
use sm_step::{Line, Verdict};
use sm_store::Store;
use sqlite_items::Items;
use std::alloc::{AllocError, AllocFailed, Global};
use std::marker::Model;

/// What the lines of a log come to: the tree of nodes that aren't refuted, the best solution and the verdict.
#[derive(Drop)]
pub struct LogState {
    alloc: Global,
    /// The header's version, once it stood.
    version: Option<u32>,
    main: Tree,
    best: Option<Assignment>,
    last: LastLine,
    verdict: Option<Verdict>,
}

impl Model for LogState {
    ghost use Rattle.std.specs.Prelude.{[]};
    ghost use Rattle.sm_rules.specs.States.{State};

    ghost Value = { State };

    ghost view = { λ s. record { version = s.version; main = s.main; lemmas = []; cuts = []; best = s.best; last = s.last; verdict = s.verdict } };
}

/// Why a line isn't applied.
#[derive(Clone, Copy, Debug, PartialEq, Eq)]
pub enum ApplyRefusal {
    /// The line isn't allowed, for this cause.
    Refused { cause: Cause },
    /// Memory ran out.
    OutOfMemory,
}

impl From<AllocError> for ApplyRefusal {
    ghost use Rattle.sm_rules.specs.declared.log_state.ApplyRefusal.TheVariants.{OutOfMemory as NoMemory};

    ghost from_gives = { λ _ r. r ≡ NoMemory };

    fn from(_: AllocError) -> ApplyRefusal {
        ApplyRefusal::OutOfMemory
    }
}

impl<T: Drop> From<AllocFailed<T>> for ApplyRefusal {
    ghost use Rattle.sm_rules.specs.declared.log_state.ApplyRefusal.TheVariants.{OutOfMemory as NoMemory};

    ghost from_gives = { λ _ r. r ≡ NoMemory };

    fn from(_: AllocFailed<T>) -> ApplyRefusal {
        ApplyRefusal::OutOfMemory
    }
}

impl From<OutOfMemory> for ApplyRefusal {
    ghost use Rattle.sm_rules.specs.declared.log_state.ApplyRefusal.TheVariants.{OutOfMemory as NoMemory};

    ghost from_gives = { λ _ r. r ≡ NoMemory };

    fn from(_: OutOfMemory) -> ApplyRefusal {
        ApplyRefusal::OutOfMemory
    }
}

impl LogState {
    /// The state before any line.
    ///
    /// # Errors
    ///
    /// `OutOfMemory`.
    pub fn new(alloc: Global, flat: &Flat) -> Result<LogState, OutOfMemory>
        ensures start { IfOk result (λ s. s ≡ start flat.now) }
        ensures of { IfOk result (IsOf flat.now) }

        // It is sound on any constraints.
        ensures sound { IfOk result (λ state. (s : ℕ → Bool) → Sound flat.now s state) }
    {
        let main = Tree::root(alloc, flat)?;
        Ok(LogState {
            alloc,
            version: None,
            main,
            best: None,
            last: LastLine::Other,
            verdict: None,
        })
    }

    /// Whether the node of a number is left and open.
    fn is_open(&self, number: u64) -> bool
        ensures { IsTrue result ↔ ((node_at self.now.main.nodes number).status ≡ Status.Open) }
    {
        self.main.status(number) == Some(Status::Open)
    }

    /// Whether the node of a number is left and has room for a child.
    fn takes_child(&self, number: u64) -> bool
        ensures { IsTrue result ↔ TakesChild (node_at self.now.main.nodes number).status }
    {
        match self.main.status(number) {
            Some(status) => laws::takes_child(status),
            None => false,
        }
    }

    /// Whether the header stood, and the focus is open.
    fn is_at_open_focus(&self) -> bool
        ensures { IsTrue result ↔ AtOpenFocus self.now }
    {
        self.version.is_some() && self.is_open(self.main.focus())
    }

    /// Whether the header stood, the number is the next node's, and the parent has room for a child.
    fn is_next_child(&self, id: u64, parent: u64) -> bool
        ensures { IsTrue result ↔ NextChild self.now id parent }
    {
        self.version.is_some()
            && id.checked_sub(1) == Some(self.main.opened())
            && self.takes_child(parent)
    }

    /// Whether the line is in order, where nothing forbids it after a verdict.
    fn is_in_order(&self, line: &Line) -> bool
        ensures { IsTrue result ↔ IsInOrder self.now line.now }
    {
        match line {
            Line::Header { .. } => self.version.is_none(),
            Line::Node { id, parent, .. } => self.is_next_child(*id, *parent),
            Line::At { id } => self.version.is_some() && self.is_open(*id),
            Line::Infer { .. }
            | Line::Lemma { .. }
            | Line::CutoffNone { .. }
            | Line::CutoffCost { .. }
            | Line::CutoffCostLevel { .. }
            | Line::Floor { .. }
            | Line::FloorLevel { .. }
            | Line::CloseNone { .. }
            | Line::CloseCost { .. }
            | Line::CloseCostLevel { .. }
            | Line::CloseFloor
            | Line::Violated { .. }
            | Line::Pair { .. }
            | Line::Norange { .. }
            | Line::Price { .. }
            | Line::Farkas { .. }
            | Line::Feasible { .. } => self.is_at_open_focus(),
            Line::CutGomory { .. }
            | Line::CutCover { .. }
            | Line::CutLeave { .. }
            | Line::Assume { .. }
            | Line::Sol { .. }
            | Line::Verdict(_) => self.version.is_some(),
            Line::Qed
            | Line::Drop
            | Line::Name { .. }
            | Line::ForgetLemma { .. }
            | Line::ForgetCut { .. } => false,
        }
    }

    /// Whether the line may come now, whatever it says.
    fn is_due(&self, line: &Line) -> bool
        ensures { IsTrue result ↔ IsDue self.now line.now }
    {
        self.verdict.is_none() && self.is_in_order(line)
    }

    /// Whether the line is lawful.
    fn is_lawful(&self, flat: &Flat, line: &Line) -> Result<bool, AllocError>
        requires of { IsOf flat.now self.now }
        requires due { IsDue self.now line.now }
        ensures { IfOk result (λ r. IsTrue r ↔ Lawful flat.now self.now line.now) }
    {
        match line {
            Line::Header { version } => Ok(*version == 1),
            Line::Node {
                parent,
                literal,
                ..
            } => self.main.is_lawful_child(self.alloc, *parent, literal),
            Line::Infer { .. } => self.is_inference(flat, line),
            Line::Floor { terms } => Ok(terms.as_slice().is_empty()),
            Line::CloseFloor => Ok(self.is_ended(flat)),
            Line::Violated { k } => Ok(self.is_violated(flat, *k)),
            Line::Sol {
                denominator,
                values,
            } => laws::is_next_best(
                self.alloc,
                flat,
                &self.best,
                *denominator,
                values.as_slice(),
            ),
            Line::Verdict(verdict) => Ok(self.is_lawful_verdict(flat, verdict)),
            _ => Ok(false),
        }
    }

    /// Whether the line is an inference that is lawful at the focus.
    fn is_inference(&self, flat: &Flat, line: &Line) -> Result<bool, AllocError>
        requires of { IsOf flat.now self.now }
        requires open { (focus_of self.now.main).status ≡ Status.Open }
        ensures { IfOk result (λ r. IsTrue r ↔ IsLawfulInference flat.now (focus_of self.now.main).store line.now) }
    {
        rule_basic::valid(self.alloc, flat, self.main.store(), line)
    }

    /// Whether the verdict is shown by the lines before it.
    fn is_lawful_verdict(&self, flat: &Flat, verdict: &Verdict) -> bool
        ensures { IsTrue result ↔ LawfulVerdict flat.now self.now verdict.now }
    {
        match verdict {
            Verdict::Optimal { values } => {
                !laws::asks_for_any(flat)
                    && laws::is_best_of(flat, values.as_slice(), &self.best)
                    && self.main.is_refuted()
            }
            Verdict::Satisfied => laws::asks_for_any(flat) && self.best.is_some(),
            Verdict::Infeasible => self.best.is_none() && self.main.is_refuted(),
            Verdict::Limit { .. } | Verdict::Range { .. } => false,
        }
    }

    /// The best is this assignment. After want of memory all is as before.
    fn set_best(&mut self, denominator: i64, values: &[i128]) -> Result<(), AllocError>
        requires { IsAssignment denominator values.now }
        ensures ok { OnOk result (self.new ≡ record self.old { best = Some (record { denominator = denominator; values = values.now }) }) }
        ensures err { OnErr result (self.new ≡ self.old) }
    {
        let values = Items::from_slice(self.alloc, values)?;
        self.best = Some(Assignment::new(denominator, values));
        Ok(())
    }

    /// Takes the step of an allowed line, which isn't tested again.
    ///
    /// # Errors
    ///
    /// `OutOfMemory`. The state is then as before.
    pub fn step(&mut self, flat: &Flat, line: &Line) -> Result<(), OutOfMemory>
        requires of { IsOf flat.now self.old }
        requires allowed { Allowed flat.now self.old line.now }
        ensures after { OnOk result (self.new ≡ after flat.now self.old line.now) }
        ensures err { OnErr result (self.new ≡ self.old) }
        ensures of { IsOf flat.now self.new }

        // On whatever constraints that have those that the line names, what was sound still is.
        ensures sound { (s : ℕ → Bool) → All (λ k. s k ≡ true) (named line.now) → Sound flat.now s self.old → Sound flat.now s self.new }
    {
        self.change(flat, line)?;
        Ok(())
    }

    /// What a line makes of the state. After want of memory all is as before.
    fn change(&mut self, flat: &Flat, line: &Line) -> Result<(), AllocError>
        requires of { IsOf flat.now self.old }
        requires allowed { Allowed flat.now self.old line.now }
        ensures after { OnOk result (self.new ≡ after flat.now self.old line.now) }
        ensures err { OnErr result (self.new ≡ self.old) }
    {
        match line {
            Line::Header { version } => self.version = Some(*version),
            Line::Node {
                id,
                parent,
                literal,
            } => self
                .main
                .open_child(self.alloc, flat, *id, *parent, literal)?,
            Line::Infer { result, .. } => self.main.conclude(result)?,
            Line::Floor { .. } => self.main.raise_focus(flat),
            Line::CloseFloor | Line::Violated { .. } => self.main.close_focus(),
            Line::Sol {
                denominator,
                values,
            } => self.set_best(*denominator, values.as_slice())?,
            Line::Verdict(verdict) => {
                let verdict = laws::copied_verdict(self.alloc, verdict)?;
                self.verdict = Some(verdict);
            }
            _ => {}
        }
        self.last = LastLine::Other;
        Ok(())
    }

    /// Applies a line.
    ///
    /// # Errors
    ///
    /// - `Refused`: exactly where the line isn't allowed, with the cause `Order`, `Law` or `Verdict`.
    /// - `OutOfMemory`.
    ///
    /// The state is then as before.
    pub fn apply(&mut self, flat: &Flat, line: &Line) -> Result<(), ApplyRefusal>
        requires { IsOf flat.now self.old }
        ensures allowed { OnOk result (Allowed flat.now self.old line.now) }
        ensures after { OnOk result (self.new ≡ after flat.now self.old line.now) }
        ensures refused { IfErr result (IsRefusedBy flat.now self.old line.now) }
        ensures err { OnErr result (self.new ≡ self.old) }
        ensures of { IsOf flat.now self.new }

        // On whatever constraints that have those that the line names, what was sound still is.
        ensures sound { (s : ℕ → Bool) → All (λ k. s k ≡ true) (named line.now) → Sound flat.now s self.old → Sound flat.now s self.new }

        // A verdict that is allowed in a sound state is true of the model.
        ensures holds { OnOk result ((s : ℕ → Bool) (v : SaidVerdict) → line.now ≡ SaysVerdict v → Sound flat.now s self.old → IsTrueOf flat.now self.old.best v) }
    {
        if !self.is_due(line) {
            return Err(ApplyRefusal::Refused {
                cause: Cause::Order,
            });
        }
        if !self.is_lawful(flat, line)? {
            let cause = laws::cause_of(line);
            return Err(ApplyRefusal::Refused { cause });
        }
        self.step(flat, line)?;
        Ok(())
    }

    /// The best solution so far.
    pub fn best(&self) -> Option<&Assignment>
        ensures { option_copied result ≡ self.now.best }
    {
        self.best.as_ref()
    }

    /// The number of the focus.
    pub fn focus(&self) -> u64
        ensures { result ≡ self.now.main.focus }
    {
        self.main.focus()
    }

    /// The floor of a node at a level, from 0, taken as minimised; none exactly where the node isn't left or there is no such level.
    pub fn floor(&self, node: u64, level: u32) -> Option<Frac>
        ensures { option_map parts_of result ≡ slice_get (node_at self.now.main.nodes node).floors level }
    {
        self.main.floors(node)?.get(level as usize).copied()
    }

    /// How many `node` lines there were so far.
    pub fn nodes(&self) -> u64
        ensures { result + 1 ≡ self.now.main.count }
    {
        self.main.opened()
    }

    /// The verdict, once it stood.
    pub fn verdict(&self) -> Option<&Verdict>
        ensures { option_copied result ≡ self.now.verdict }
    {
        self.verdict.as_ref()
    }

    /// How many nodes are left.
    pub fn kept(&self) -> u64
        ensures { result ≡ length self.now.main.nodes }
    {
        self.main.len() as u64
    }

    /// The store of the focus; none exactly where the focus isn't open.
    pub fn store(&self) -> Option<&Store>
        ensures open { IsSome result ↔ ((focus_of self.now.main).status ≡ Status.Open) }
        ensures value { IfSome result (λ s. s.now ≡ (focus_of self.now.main).store) }
    {
        if self.is_open(self.main.focus()) {
            Some(self.main.store())
        } else {
            None
        }
    }

    /// The greatest-numbered node with one child, with the complement of that child's literal; none exactly where no node has one child.
    pub fn half(&self) -> Option<(u64, Literal)>
        ensures some { IfSome result (λ h. IsLastHalf self.now.main.nodes h.0 h.1) }
        ensures none { IfNone result (All (λ (n : NodeView). HasOneChild n.status → ⊥) self.now.main.nodes) }
    {
        self.main.half()
    }

    /// Whether no node is left, so that the tree is refuted.
    pub fn is_refuted(&self) -> bool
        ensures { IsTrue result ↔ IsRefuted self.now.main }
    {
        self.main.is_refuted()
    }

    /// Whether there is a best, and the focus's floors end it.
    pub fn is_ended(&self, flat: &Flat) -> bool
        ensures { IsTrue result ↔ BeatsBest flat.now (focus_of self.now.main).floors self.now.best }
    {
        let floors = self.main.floors(self.main.focus()).unwrap_or(&[]);
        laws::beats_best(flat, floors, &self.best)
    }

    /// Whether all variables of constraint k are fixed at the focus, and their values violate it.
    pub fn is_violated(&self, flat: &Flat, k: u32) -> bool
        requires of { IsOf flat.now self.now }
        requires open { (focus_of self.now.main).status ≡ Status.Open }
        ensures { IsTrue result ↔ IsViolated flat.now (focus_of self.now.main).store k }
    {
        violation::is_violated(flat, self.main.store(), k)
    }

    /// Whether the assignment is better than the best, or there is no best.
    pub fn is_better(&self, flat: &Flat, a: &Assignment) -> bool
        ensures { IsTrue result ↔ IfSome self.now.best (λ b. IsBetter flat.now (point_of a.now) (point_of b)) }
    {
        laws::is_better_than(flat, a, &self.best)
    }

    /// The best solution, in place of the state.
    pub fn into_best(self) -> Option<Assignment>
        ensures { result ≡ self.best }
    {
        self.best
    }

    /// The verdict and the best solution, in place of the state.
    pub fn into_end(self) -> (Option<Verdict>, Option<Assignment>)
        ensures verdict { result.0 ≡ self.verdict }
        ensures best { result.1 ≡ self.best }
    {
        (self.verdict, self.best)
    }

    /// The verdict, in place of the state.
    pub fn into_verdict(self) -> Option<Verdict>
        ensures { result ≡ self.verdict }
    {
        self.verdict
    }
}
