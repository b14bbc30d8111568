use sqlite_trees::error::StoreError;
use std::alloc::AllocError;

/// Why there is no answer.
#[derive(Clone, Copy, PartialEq, Eq)]
pub enum Failure {
    /// The store failed, or memory ran out.
    Store(StoreError),
    /// The row of this number, in this tree, has columns that a host's tables don't.
    Misfit(u32, u64),
    /// The row of this number is in this tree, of a table that nothing fills yet.
    Filled(u32, u64),
    /// A sum is above 2^64 - 1, as no sound host's is.
    TooMuch,
}

impl From<AllocError> for Failure {
    fn from(_: AllocError) -> Failure {
        Failure::Store(StoreError::OutOfMemory)
    }
}

impl From<StoreError> for Failure {
    fn from(error: StoreError) -> Failure {
        Failure::Store(error)
    }
}
