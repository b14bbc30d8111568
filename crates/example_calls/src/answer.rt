//! The result of a call, as a row of a table has it.

use bh_types::error::RequestError;
use bh_types::refusal::Refusal;
use sqlite::Error;
use std::alloc::{AllocError, AllocFailed, Global};
use std::io;

/// Why a row has no answer.
#[derive(Clone, Copy, Debug, PartialEq, Eq)]
pub enum Fault {
    /// Memory or a store failed.
    Memory,
    /// There is no such call, or its input doesn't have its form.
    Form,
}

impl From<AllocError> for Fault {
    fn from(_error: AllocError) -> Fault {
        Fault::Memory
    }
}

impl<T: Drop> From<AllocFailed<T>> for Fault {
    fn from(_error: AllocFailed<T>) -> Fault {
        Fault::Memory
    }
}

impl From<Error> for Fault {
    fn from(_error: Error) -> Fault {
        Fault::Memory
    }
}

impl From<io::Error> for Fault {
    fn from(_error: io::Error) -> Fault {
        Fault::Memory
    }
}

/// A call's text.
pub type Answer = Result<String, Fault>;

pub fn text(alloc: Global, shown: &str) -> Answer {
    Ok(String::from_str(alloc, shown)?)
}

/// The number of a refusal.
pub fn refusal(alloc: Global, refusal: Refusal) -> Answer {
    Ok(refusal.number().to_string(alloc)?)
}

/// The number of a refusal. Lack of memory is not an answer.
pub fn refused(alloc: Global, error: RequestError) -> Answer {
    match error {
        RequestError::Refused(why) => refusal(alloc, why),
        RequestError::OutOfMemory => Err(Fault::Memory),
    }
}
