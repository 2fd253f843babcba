//! Why reading stops.
use std::alloc::{AllocError, AllocFailed};

/// Why a part of a text isn't read. The reader then stands at the token concerned.
#[derive(Clone, Copy)]
pub enum Failure {
    /// No continuation of the grammar has this token here.
    Syntax,
    /// The token opens a bracket inside as many as may be open.
    Nesting,
    OutOfMemory,
}

impl From<AllocError> for Failure {
    ghost use Rattle.std.specs.Prelude.{◌≡◌};
    ghost use Rattle.sm_syntax.specs.declared.failure.Failure.TheVariants.{OutOfMemory};

    ghost from_gives = { λ _ e. e ≡ OutOfMemory };

    fn from(_error: AllocError) -> Failure {
        Failure::OutOfMemory
    }
}

impl<T: Drop> From<AllocFailed<T>> for Failure {
    ghost use Rattle.std.specs.Prelude.{◌≡◌};
    ghost use Rattle.sm_syntax.specs.declared.failure.Failure.TheVariants.{OutOfMemory};

    ghost from_gives = { λ _ e. e ≡ OutOfMemory };

    fn from(_error: AllocFailed<T>) -> Failure {
        Failure::OutOfMemory
    }
}
