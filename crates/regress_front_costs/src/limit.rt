//! Why a pattern is refused where a limit is given.
ghost use Rattle.std.specs.Prelude.{◌≡◌};

use regress_front_core::Error;
use std::alloc::AllocError;

/// Why a pattern is refused that may cost no more than a limit.
#[derive(Clone, Debug, Drop, PartialEq, Eq)]
pub enum LimitError {
    /// It costs more than the limit.
    PastLimit,
    /// It is refused whatever the limit is, or a request for memory was refused.
    Refused(Error),
}

impl From<Error> for LimitError {
    ghost use Rattle.regress_front_costs.specs.declared.limit.LimitError.TheVariants.{Refused};

    ghost from_gives = { λ refused e. e ≡ Refused refused };

    fn from(refused: Error) -> LimitError {
        LimitError::Refused(refused)
    }
}

impl From<AllocError> for LimitError {
    ghost use Rattle.regress_front_costs.specs.declared.limit.LimitError.TheVariants.{Refused};
    ghost use Rattle.regress_front_core.specs.declared.error.Error.TheVariants.{OutOfMemory};

    ghost from_gives = { λ _ e. e ≡ Refused OutOfMemory };

    fn from(_refused: AllocError) -> LimitError {
        LimitError::Refused(Error::OutOfMemory)
    }
}
