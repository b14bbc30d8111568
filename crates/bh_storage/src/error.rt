use bh_http::body::{Break, CollectError};
use bh_types::error::RequestError;
use bh_types::refusal::Refusal;
use bh_types::rejection::Rejection;
use sqlite::ErrorCode;
use std::alloc::AllocError;
use std::fmt;

/// Why a valid call failed.
#[derive(Clone, Copy, PartialEq, Eq)]
pub enum Trouble {
    /// Memory ran out.
    Memory,
    /// The store failed, with this code.
    StoreRefused(ErrorCode),
    /// The store's data can't be read, or it failed without a code.
    Store,
    /// The body of a request was incomplete.
    Body,
}

/// One word, with the name of the store's code.
impl fmt::Display for Trouble {
    fn fmt<W: fmt::Write>(&self, f: &mut fmt::Formatter<W>) -> fmt::Result {
        match self {
            Trouble::Memory => f.write_str("memory"),
            Trouble::StoreRefused(code) => write!(f, "store={code:?}"),
            Trouble::Store => f.write_str("store"),
            Trouble::Body => f.write_str("body"),
        }
    }
}

impl From<AllocError> for Trouble {
    ghost use Rattle.std.specs.Prelude.{◌≡◌};
    ghost use Rattle.bh_storage.specs.declared.error.Trouble.TheVariants.{Memory};

    ghost from_gives = { λ _ e. e ≡ Memory };

    fn from(_error: AllocError) -> Trouble {
        Trouble::Memory
    }
}

impl From<Break> for Trouble {
    ghost use Rattle.std.specs.Prelude.{◌≡◌};
    ghost use Rattle.bh_storage.specs.declared.error.Trouble.TheVariants.{Body};

    ghost from_gives = { λ _ e. e ≡ Body };

    fn from(_cause: Break) -> Trouble {
        Trouble::Body
    }
}

impl From<CollectError> for Trouble {
    ghost use Rattle.bh_storage.specs.Errors.{uncollected};
    ghost use Rattle.std.specs.Prelude.{◌≡◌};

    ghost from_gives = { λ error e. e ≡ uncollected error };

    fn from(error: CollectError) -> Trouble {
        match error {
            CollectError::Broken(_) => Trouble::Body,
            CollectError::OutOfMemory => Trouble::Memory,
        }
    }
}

/// The result of a step that was not refused at once.
#[derive(Drop)]
pub enum Outcome<T, E> {
    Done(T),
    /// A refusal that was found after rows were written. The rows are unspecified until the
    /// transaction is rolled back.
    Spoilt(E),
}

/// Why a step of a tenant failed: it was refused for a reason `E`, or memory or the store failed.
#[derive(Clone, Copy, PartialEq, Eq)]
pub enum StepError<E> {
    /// A numbered refusal: the tables are unchanged.
    Refused(E),
    /// Memory or the store failed, or the body was incomplete. The rows are unspecified until the
    /// transaction is rolled back.
    Failed(Trouble),
}

impl<E> From<Trouble> for StepError<E> {
    ghost use Rattle.std.specs.Prelude.{◌≡◌};
    ghost use Rattle.bh_storage.specs.declared.error.StepError.TheVariants.{Failed};

    ghost from_gives = { λ trouble e. e ≡ Failed trouble };

    fn from(trouble: Trouble) -> StepError<E> {
        StepError::Failed(trouble)
    }
}

impl<E> From<AllocError> for StepError<E> {
    ghost use Rattle.std.specs.Prelude.{◌≡◌};
    ghost use Rattle.bh_storage.specs.declared.error.Trouble.TheVariants.{Memory};
    ghost use Rattle.bh_storage.specs.declared.error.StepError.TheVariants.{Failed};

    ghost from_gives = { λ _ e. e ≡ Failed Memory };

    fn from(_error: AllocError) -> StepError<E> {
        StepError::Failed(Trouble::Memory)
    }
}

impl From<Refusal> for StepError<Refusal> {
    ghost use Rattle.std.specs.Prelude.{◌≡◌};
    ghost use Rattle.bh_storage.specs.declared.error.StepError.TheVariants.{Refused};

    ghost from_gives = { λ refusal e. e ≡ Refused refusal };

    fn from(refusal: Refusal) -> StepError<Refusal> {
        StepError::Refused(refusal)
    }
}

impl From<Refusal> for StepError<Rejection> {
    ghost use Rattle.std.specs.Prelude.{◌≡◌};
    ghost use Rattle.bh_types.specs.Rejections.{plain};
    ghost use Rattle.bh_storage.specs.declared.error.StepError.TheVariants.{Refused};

    ghost from_gives = { λ refusal e. e ≡ Refused (plain refusal) };

    fn from(refusal: Refusal) -> StepError<Rejection> {
        StepError::Refused(Rejection::from(refusal))
    }
}

impl From<Rejection> for StepError<Rejection> {
    ghost use Rattle.std.specs.Prelude.{◌≡◌};
    ghost use Rattle.bh_storage.specs.declared.error.StepError.TheVariants.{Refused};

    ghost from_gives = { λ rejection e. e ≡ Refused rejection };

    fn from(rejection: Rejection) -> StepError<Rejection> {
        StepError::Refused(rejection)
    }
}

impl From<StepError<Refusal>> for StepError<Rejection> {
    ghost use Rattle.std.specs.Prelude.{◌≡◌};
    ghost use Rattle.bh_storage.specs.Errors.{step_rejected};

    ghost from_gives = { λ error e. e ≡ step_rejected error };

    fn from(error: StepError<Refusal>) -> StepError<Rejection> {
        match error {
            StepError::Refused(refusal) => StepError::Refused(Rejection::from(refusal)),
            StepError::Failed(trouble) => StepError::Failed(trouble),
        }
    }
}

impl From<RequestError> for StepError<Rejection> {
    ghost use Rattle.std.specs.Prelude.{◌≡◌};
    ghost use Rattle.bh_storage.specs.Errors.{request_rejected};

    ghost from_gives = { λ error e. e ≡ request_rejected error };

    fn from(error: RequestError) -> StepError<Rejection> {
        match error {
            RequestError::Refused(refusal) => StepError::Refused(Rejection::from(refusal)),
            RequestError::OutOfMemory => StepError::Failed(Trouble::Memory),
        }
    }
}
