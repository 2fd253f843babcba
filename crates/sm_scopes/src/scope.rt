//! The names that are known, and what they stand for.
ghost use Rattle.std.specs.Prelude.{◌≡◌, ◌++◌, ◌∷◌, [], option_map, is_some, ◌<◌, ◌≤◌, IfSome, OnOk, false};
ghost use Rattle.sm_meaning.specs.Scopes.{found, count_of};
ghost use Rattle.sm_meaning.specs.Cases.{kind_at};
ghost use Rattle.sm_kinds.specs.Limits.{most_variables};
ghost use Rattle.sm_scopes.specs.Things.{thing_of, HasVariables};

use indexmap::IndexMap;
use sm_data::{Table, Tables};
use sm_kinds::VarKind;
use sm_meaning::Range;
use sqlite_items::Items;
use std::alloc::{AllocError, Global};
use std::marker::Model;

/// What a name stands for.
#[derive(Drop)]
pub enum Thing<'t> {
    Table(&'t Table),
    IndexSet(Range),
    /// The variable of this number.
    Variable(u32),
    /// A family of variables with an index set for each index. Its members have the numbers from `first` on, in
    /// lexicographic order of their indices.
    Family { first: u32, sets: Items<Range> },
}

/// The names that are known, and the kinds of the variables that are declared.
#[derive(Drop)]
pub struct Scope<'t> {
    names: IndexMap<&'t [u8], Thing<'t>>,
    kinds: Vec<VarKind>,
}

impl<'t> Model for Scope<'t> {
    ghost use Rattle.std.specs.Prelude.{map};
    ghost use Rattle.sm_meaning.specs.Scopes.{Scope};
    ghost use Rattle.sm_scopes.specs.Things.{thing_of, IsKept};

    ghost Value = { Scope };

    ghost view = { λ s. record { names = map (λ e. (e.0.now, thing_of e.1)) s.names.entries; kinds = s.kinds.items } };

    ghost invariant = { λ s. IsKept (map (λ e. (e.0.now, thing_of e.1)) s.names.entries) s.kinds.items };
}

impl<'t> Scope<'t> {
    /// Nothing is known.
    pub fn new(alloc: Global) -> Scope<'t>
        ensures names { result.names ≡ [] }
        ensures kinds { result.kinds ≡ [] }
    {
        Scope {
            names: IndexMap::new(alloc),
            kinds: Vec::new(alloc),
        }
    }

    /// What a name stands for.
    pub fn look(&self, name: &[u8]) -> Option<&Thing<'t>>
        ensures thing { option_map (λ t. thing_of t.now) result ≡ found self.now.names name.now }
        ensures variables { IfSome result (λ t. HasVariables (count_of self.now) (thing_of t.now)) }
        ensures few { IfSome result (λ t. HasVariables most_variables (thing_of t.now)) }
    {
        self.names.get(name)
    }

    /// How many variables are declared.
    pub fn count(&self) -> usize
        ensures count { result ≡ count_of self.now }
        ensures few { result ≤ most_variables }
    {
        self.kinds.len()
    }

    /// The kind of a variable.
    pub fn kind_of(&self, var: u32) -> VarKind
        ensures { result ≡ kind_at self.now var }
    {
        match self.kinds.get(var as usize) {
            Some(kind) => *kind,
            None => VarKind::Set,
        }
    }

    /// A name that isn't known yet stands for this.
    #[tactic(auto, using(crate::proofs::Names::kept_name))]
    pub fn insert(&mut self, name: &'t [u8], thing: Thing<'t>) -> Result<(), AllocError>
        requires new { is_some (found self.old.names name.now) ≡ false }
        requires variables { HasVariables (count_of self.old) (thing_of thing) }
        ensures ok { OnOk result (self.new.names ≡ self.old.names ++ (name.now, thing_of thing.entry) ∷ []) }
        ensures kinds { self.new.kinds ≡ self.old.kinds }
    {
        if self.names.insert(name, thing).is_err() {
            return Err(AllocError);
        }
        Ok(())
    }

    /// One more variable of this kind.
    #[tactic(auto, using(crate::proofs::Names::kept_kind))]
    pub fn declare(&mut self, kind: VarKind) -> Result<(), AllocError>
        requires { count_of self.old < most_variables }
        ensures ok { OnOk result (self.new.kinds ≡ self.old.kinds ++ kind ∷ []) }
        ensures names { self.new.names ≡ self.old.names }
    {
        match self.kinds.push(kind) {
            Ok(()) => Ok(()),
            Err(_) => Err(AllocError),
        }
    }
}
