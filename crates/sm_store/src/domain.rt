//! The values that one variable may still have, as a query reads them.
ghost use Rattle.std.specs.Prelude.{◌≡◌, ◌≢◌, ◌<◌, ◌≤◌, ◌^◌, ◌↔◌, pos, length, unsigned_abs, [], IsTrue, IsSome, IfSome};
ghost use Rattle.sm_kinds.specs.Vars.{LiesIn};
ghost use Rattle.sm_kinds.specs.declared.var.VarKind.TheVariants.{Set as Listed};
ghost use Rattle.sm_store.specs.Stores.{AreWordsOf, kept, narrowed, truth_in, least_of, greatest_of, size_in, fixed_value};
ghost use Rattle.sm_store.specs.Blocks.{IsSummary};

use crate::place::Place;
use crate::summary::{Summary, summary_in};
use crate::{range, set, words};
use sm_flat::{Literal, VarKind};
use std::marker::Model;

/// The values that one variable may still have: its part of a store's block.
#[derive(Drop)]
pub(crate) struct Domain<'a> {
    kind: VarKind,
    base: i64,
    part: &'a [u64],
}

impl<'a> Model for Domain<'a> {
    ghost use Rattle.sm_store.specs.Stores.{Extent};

    ghost Value = { Extent };

    ghost use Rattle.sm_store.specs.Blocks.{extent_in, IsPart};

    ghost view = { λ d. extent_in d.kind d.base d.part.now };

    ghost invariant = { λ d. IsPart d.kind d.base d.part.now };
}

impl<'a> Domain<'a> {
    ghost use Rattle.sm_store.specs.Blocks.{extent_in, IsPart};

    /// The domain of a variable with this part.
    pub(crate) fn new(place: &Place, part: &'a [u64]) -> Domain<'a>
        requires { IsPart place.now.kind place.now.base part.now }
        ensures { result ≡ extent_in place.now.kind place.now.base part.now }
    {
        Domain {
            kind: place.kind,
            base: place.base,
            part,
        }
    }

    /// The least and the greatest value, where there is one.
    pub(crate) fn bounds(&self) -> Option<(i64, i64)>
        ensures variant { IsSome result ↔ (0 < length self.now.values) }
        ensures value { IfSome result (λ b. (b.0 ≡ least_of self.now) × (b.1 ≡ greatest_of self.now)) }
        ensures small { IfSome result (λ b. (unsigned_abs b.0 ≤ 2 ^ 31) × (unsigned_abs b.1 ≤ 2 ^ 31)) }
    {
        let summary = summary_in(self.part);
        if summary.least <= summary.greatest {
            Some((summary.least, summary.greatest))
        } else {
            None
        }
    }

    /// The least value, and 0 where there is none.
    pub(crate) fn least(&self) -> i64
        ensures value { result ≡ least_of self.now }
        ensures small { unsigned_abs result ≤ 2 ^ 31 }
    {
        match self.bounds() {
            Some((least, _)) => least,
            None => 0,
        }
    }

    /// The value, where there is just one.
    pub(crate) fn fixed(&self) -> Option<i64>
        ensures value { result ≡ fixed_value self.now.kind self.now.values }
        ensures small { IfSome result (λ v. unsigned_abs v ≤ 2 ^ 31) }
    {
        let summary = summary_in(self.part);
        if summary.size == 1 {
            Some(summary.least)
        } else {
            None
        }
    }

    /// How many values there are; those of a real variable aren't counted.
    pub(crate) fn size(&self) -> u64
        ensures { result ≡ size_in self.now.kind self.now.values }
    {
        summary_in(self.part).size
    }

    /// Whether there is no value.
    pub(crate) fn is_empty(&self) -> bool
        ensures { IsTrue result ↔ (self.now.values ≡ []) }
    {
        self.bounds().is_none()
    }

    /// Whether this whole number is one of the values.
    pub(crate) fn has(&self, value: i64) -> bool
        ensures { IsTrue result ↔ LiesIn self.now.kind self.now.values value (pos 1) }
    {
        let summary = summary_in(self.part);
        match self.kind {
            VarKind::Set => words::has(set::words_in(self.part), &self.base, &value),
            VarKind::Int => range::is_inside(&value, summary.least, summary.greatest),
            VarKind::Real => range::is_between(&value, summary.least, summary.greatest),
        }
    }

    /// Whether the literal leaves a value.
    pub(crate) fn leaves(&self, literal: &Literal) -> bool
        ensures { IsTrue result ↔ (0 < length (kept self.now.kind literal.now self.now.values)) }
    {
        let summary = summary_in(self.part);
        match self.kind {
            VarKind::Set => set::leaves(literal, &self.base, self.part),
            VarKind::Int => range::leaves(literal, summary.least, summary.greatest),
            VarKind::Real => summary.least <= summary.greatest,
        }
    }

    /// Whether the literal makes the domain another one.
    pub(crate) fn changes(&self, literal: &Literal) -> bool
        ensures { IsTrue result ↔ (kept self.now.kind literal.now self.now.values ≢ self.now.values) }
    {
        let summary = summary_in(self.part);
        match self.kind {
            VarKind::Set => set::changes(literal, &self.base, self.part),
            VarKind::Int => range::changes(literal, summary.least, summary.greatest),
            VarKind::Real => false,
        }
    }

    /// What the cells would say of the values that the literal leaves.
    #[tactic(auto, using(crate::proofs::Cells::small_left))]
    fn summary_left(&self, literal: &Literal) -> Summary
        ensures summary { IsSummary self.now.kind (kept self.now.kind literal.now self.now.values) result }
        ensures least { unsigned_abs result.least ≤ 2 ^ 31 }
        ensures greatest { unsigned_abs result.greatest ≤ 2 ^ 31 }
    {
        let summary = summary_in(self.part);
        match self.kind {
            VarKind::Set => set::summary_left(literal, &self.base, self.part),
            VarKind::Int => range::kept(literal, summary.least, summary.greatest),
            VarKind::Real => summary,
        }
    }

    /// The least and the greatest value that the literal leaves, where it leaves one.
    #[tactic(auto, using(crate::proofs::Cells::not_crossing, crate::proofs::Cells::crossing))]
    pub(crate) fn ends_left(&self, literal: &Literal) -> Option<(i64, i64)>
        ensures variant { IsSome result ↔ (0 < length (kept self.now.kind literal.now self.now.values)) }
        ensures value { IfSome result (λ b. (b.0 ≡ least_of (narrowed literal.now self.now)) × (b.1 ≡ greatest_of (narrowed literal.now self.now))) }
        ensures small { IfSome result (λ b. (unsigned_abs b.0 ≤ 2 ^ 31) × (unsigned_abs b.1 ≤ 2 ^ 31)) }
    {
        let summary = self.summary_left(literal);
        if summary.least <= summary.greatest {
            Some((summary.least, summary.greatest))
        } else {
            None
        }
    }

    /// What the literal is for all values, where they agree.
    pub(crate) fn truth(&self, literal: &Literal) -> Option<bool>
        ensures { result ≡ truth_in literal.now self.now }
    {
        let summary = summary_in(self.part);
        match self.kind {
            VarKind::Set => set::truth(literal, &self.base, self.part),
            VarKind::Int => range::truth(literal, summary.least, summary.greatest),
            VarKind::Real => None,
        }
    }

    /// The base and the words, where they are of a set.
    pub(crate) fn words(&self) -> Option<(i64, &'a [u64])>
        ensures variant { IsSome result ↔ (self.now.kind ≡ Listed) }
        ensures base { IfSome result (λ w. w.0 ≡ self.now.base) }
        ensures words { IfSome result (λ w. AreWordsOf self.now w.1.now) }
    {
        match self.kind {
            VarKind::Set => Some((self.base, set::words_in(self.part))),
            VarKind::Int | VarKind::Real => None,
        }
    }
}
