//! Why a log isn't accepted.
ghost use Rattle.std.specs.Prelude.{◌≡◌};

use sm_base::OutOfMemory;
use sm_rules::Cause;
use std::alloc::{AllocError, AllocFailed};

/// Why a log isn't accepted.
#[derive(Clone, Copy, Debug, PartialEq, Eq)]
pub enum CheckRefusal {
    /// This line, numbered from 1, is the first that isn't allowed, for this cause.
    Refused { line: u64, cause: Cause },
    /// The shelf failed.
    ReadFault,
    /// The log has more than 2^40 bytes.
    LogTooLong,
    /// Memory ran out.
    OutOfMemory,
}

impl From<AllocError> for CheckRefusal {
    ghost use Rattle.sm_check.specs.declared.refusal.CheckRefusal.TheVariants.{OutOfMemory as NoMemory};

    ghost from_gives = { λ _ r. r ≡ NoMemory };

    fn from(_: AllocError) -> CheckRefusal {
        CheckRefusal::OutOfMemory
    }
}

impl<T: Drop> From<AllocFailed<T>> for CheckRefusal {
    ghost use Rattle.sm_check.specs.declared.refusal.CheckRefusal.TheVariants.{OutOfMemory as NoMemory};

    ghost from_gives = { λ _ r. r ≡ NoMemory };

    fn from(_: AllocFailed<T>) -> CheckRefusal {
        CheckRefusal::OutOfMemory
    }
}

impl From<OutOfMemory> for CheckRefusal {
    ghost use Rattle.sm_check.specs.declared.refusal.CheckRefusal.TheVariants.{OutOfMemory as NoMemory};

    ghost from_gives = { λ _ r. r ≡ NoMemory };

    fn from(_: OutOfMemory) -> CheckRefusal {
        CheckRefusal::OutOfMemory
    }
}
