//! Why a form isn't made.
use std::alloc::AllocError;

/// Why a form isn't made.
#[derive(Clone, Copy, Debug)]
pub enum FormRefusal {
    /// A number would be above 2^62 in absolute value; the first such, coefficients in the order of variables before the
    /// constant.
    TooLarge { found: u128 },
    OutOfMemory,
}

impl From<AllocError> for FormRefusal {
    ghost use Rattle.std.specs.Prelude.{◌≡◌};
    ghost use Rattle.sm_forms.specs.declared.refusal.FormRefusal.TheVariants.{OutOfMemory};

    ghost from_gives = { λ _ e. e ≡ OutOfMemory };

    fn from(_error: AllocError) -> FormRefusal {
        FormRefusal::OutOfMemory
    }
}
