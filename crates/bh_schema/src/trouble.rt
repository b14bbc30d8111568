ghost use Rattle.std.specs.Prelude.{◌≡◌, IfOk, IfErr, Ok, IsErrAnd};
ghost use Rattle.bh_schema.specs.Troubles as spec;

use bh_storage::error::Trouble;
use sqlite::{Error, ErrorCode};

/// A database error as the host's failure, with its code if it has one.
pub fn trouble_of(error: Error) -> Trouble
    ensures { result ≡ spec.trouble_of error }
{
    match error {
        Error::SqliteFailure(ErrorCode::OutOfMemory) => Trouble::Memory,
        Error::SqliteFailure(code) => Trouble::StoreRefused(code),
        _ => Trouble::Store,
    }
}

/// The result of a database call, with its error as the host's failure.
pub fn or_trouble<T>(outcome: Result<T, Error>) -> Result<T, Trouble>
    ensures ok { IfOk result (λ x. outcome ≡ Ok x) }
    ensures err { IfErr result (λ trouble. IsErrAnd outcome (λ e. trouble ≡ spec.trouble_of e)) }
{
    match outcome {
        Ok(x) => Ok(x),
        Err(error) => Err(trouble_of(error)),
    }
}
