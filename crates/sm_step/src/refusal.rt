//! Why bytes are no line.
use std::alloc::{AllocError, AllocFailed};

/// Why bytes are not read as a line.
#[derive(Clone, Copy)]
pub enum LineRefusal {
    /// The bytes are no line of the grammar.
    BadLine,
    OutOfMemory,
}

impl From<AllocError> for LineRefusal {
    ghost use Rattle.std.specs.Prelude.{◌≡◌};
    ghost use Rattle.sm_step.specs.declared.refusal.LineRefusal.TheVariants.{OutOfMemory};

    ghost from_gives = { λ _ e. e ≡ OutOfMemory };

    fn from(_error: AllocError) -> LineRefusal {
        LineRefusal::OutOfMemory
    }
}

impl<T: Drop> From<AllocFailed<T>> for LineRefusal {
    ghost use Rattle.std.specs.Prelude.{◌≡◌};
    ghost use Rattle.sm_step.specs.declared.refusal.LineRefusal.TheVariants.{OutOfMemory};

    ghost from_gives = { λ _ e. e ≡ OutOfMemory };

    fn from(_error: AllocFailed<T>) -> LineRefusal {
        LineRefusal::OutOfMemory
    }
}
