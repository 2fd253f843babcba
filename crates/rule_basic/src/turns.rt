//! Results: literals that change a store, one after the other.
ghost use Rattle.std.specs.Prelude.{◌↔◌, IsTrue, IfOk};
ghost use Rattle.sm_store.specs.Stores.{TightensEach};

use sm_flat::Literal;
use sm_store::Store;
use std::alloc::{AllocError, Global};

/// Whether each literal changes the store in its turn. The store is copied only for a second one.
pub(crate) fn tightens_each(
    alloc: Global,
    store: &Store,
    literals: &[Literal],
) -> Result<bool, AllocError>
    ensures { IfOk result (λ r. IsTrue r ↔ TightensEach store.now literals.now) }
{
    match literals {
        [] => Ok(true),
        [literal] => Ok(store.tightens(literal)),
        _ => {
            let mut narrowed = store.copy(alloc)?;
            Ok(tighten_all(&mut narrowed, literals))
        }
    }
}

/// Narrows the store by the literals as long as each changes it, and says whether each did.
fn tighten_all(store: &mut Store, literals: &[Literal]) -> bool
    ensures { IsTrue result ↔ TightensEach store.old literals.now }
{
    for literal in literals {
        if !store.tightens(literal) {
            return false;
        }
        store.narrow(literal);
    }
    true
}
