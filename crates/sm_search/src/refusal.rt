//! Why a search stops before its verdict.
use sm_base::{OutOfMemory, WriteFault};
use std::alloc::{AllocError, AllocFailed};

/// Why a search stopped. What was put is then some lines and a front of one more.
#[derive(Clone, Copy, Debug, PartialEq, Eq)]
pub enum WorkRefusal {
    /// A put failed, and the sink's count of faults rose.
    WriteFault,
    /// The next line would bring the log above 2^40 bytes.
    LogTooLong,
    /// Memory ran out.
    OutOfMemory,
}

impl From<AllocError> for WorkRefusal {
    ghost use Rattle.std.specs.Prelude.{◌≡◌};
    ghost use Rattle.sm_search.specs.declared.refusal.WorkRefusal.TheVariants.{OutOfMemory as NoMemory};

    ghost from_gives = { λ _ r. r ≡ NoMemory };

    fn from(_: AllocError) -> WorkRefusal {
        WorkRefusal::OutOfMemory
    }
}

impl<T: Drop> From<AllocFailed<T>> for WorkRefusal {
    ghost use Rattle.std.specs.Prelude.{◌≡◌};
    ghost use Rattle.sm_search.specs.declared.refusal.WorkRefusal.TheVariants.{OutOfMemory as NoMemory};

    ghost from_gives = { λ _ r. r ≡ NoMemory };

    fn from(_: AllocFailed<T>) -> WorkRefusal {
        WorkRefusal::OutOfMemory
    }
}

impl From<OutOfMemory> for WorkRefusal {
    ghost use Rattle.std.specs.Prelude.{◌≡◌};
    ghost use Rattle.sm_search.specs.declared.refusal.WorkRefusal.TheVariants.{OutOfMemory as NoMemory};

    ghost from_gives = { λ _ r. r ≡ NoMemory };

    fn from(_: OutOfMemory) -> WorkRefusal {
        WorkRefusal::OutOfMemory
    }
}
