use crate::refusal::Refusal;
use std::alloc::AllocError;

/// Why a step of a request failed: it was refused, or memory ran out.
#[derive(Clone, Copy, PartialEq, Eq)]
pub enum RequestError {
    /// The request is refused.
    Refused(Refusal),
    /// No memory was left for the answer; nothing is known about the request.
    OutOfMemory,
}

impl From<AllocError> for RequestError {
    ghost use Rattle.std.specs.Prelude.{◌≡◌};
    ghost use Rattle.bh_types.specs.declared.error.RequestError.TheVariants.{OutOfMemory};

    ghost from_gives = { λ _ e. e ≡ OutOfMemory };

    fn from(_error: AllocError) -> RequestError {
        RequestError::OutOfMemory
    }
}

impl From<Refusal> for RequestError {
    ghost use Rattle.std.specs.Prelude.{◌≡◌};
    ghost use Rattle.bh_types.specs.declared.error.RequestError.TheVariants.{Refused};

    ghost from_gives = { λ refusal e. e ≡ Refused refusal };

    fn from(refusal: Refusal) -> RequestError {
        RequestError::Refused(refusal)
    }
}
