//! Constraints that the fixed values of a store violate.
ghost use Rattle.std.specs.Prelude.{◌↔◌, IsTrue};
ghost use Rattle.sm_store.specs.Stores.{IsStoreOf};
ghost use Rattle.sm_rules.specs.Violations.{IsViolated};

use sm_flat::{Flat, every_var, holds};
use sm_store::Store;

/// Whether all variables of constraint k are fixed in the store, and their values violate it.
pub(crate) fn is_violated(flat: &Flat, store: &Store, k: u32) -> bool
    requires { IsStoreOf flat.now store.now }
    ensures { IsTrue result ↔ IsViolated flat.now store.now k }
{
    if k as usize >= flat.constraints().len() {
        return false;
    }
    every_var(flat, k, store) && !holds(flat, k, store)
}
