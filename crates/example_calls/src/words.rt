//! The words of a row.

use crate::answer::Fault;
use bh_types::bucket_state::BucketState;
use bh_types::id::VersionId;
use bh_types::wanted::Wanted;
use std::alloc::{AllocError, Global};

pub fn number(text: &str) -> Result<u64, Fault> {
    text.parse::<u64>().ok().ok_or(Fault::Form)
}

pub fn state_text(state: BucketState) -> &'static str {
    match state {
        BucketState::Unversioned => "Unversioned",
        BucketState::Enabled => "Enabled",
        BucketState::Suspended => "Suspended",
    }
}

/// `current`, `null`, a number, or `unknown`.
pub fn wanted_text(alloc: Global, version: Wanted) -> Result<String, AllocError> {
    match version {
        Wanted::Current => String::from_str(alloc, "current"),
        Wanted::Named(VersionId::Null) => String::from_str(alloc, "null"),
        Wanted::Named(VersionId::Numbered(n)) => n.to_string(alloc),
        Wanted::Unknown => String::from_str(alloc, "unknown"),
    }
}
