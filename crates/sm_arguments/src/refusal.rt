//! Why a command line is refused.
use std::alloc::AllocError;

/// Why a command line is refused.
#[derive(Clone, Copy, Debug, PartialEq, Eq)]
pub enum RequestRefusal {
    /// The words are no command line.
    Usage,
    /// Memory ran out.
    OutOfMemory,
}

impl From<AllocError> for RequestRefusal {
    ghost use Rattle.std.specs.Prelude.{◌≡◌};
    ghost use Rattle.sm_arguments.specs.declared.refusal.RequestRefusal.TheVariants.{OutOfMemory};

    ghost from_gives = { λ _ e. e ≡ OutOfMemory };

    fn from(_error: AllocError) -> RequestRefusal {
        RequestRefusal::OutOfMemory
    }
}
