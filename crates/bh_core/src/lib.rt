//! Decisions on a request that need no reads or writes: a range's bytes, the parts of a completed
//! upload, which uploads are stale, quotas, and retention. Only the list of parts allocates memory.
#![tactic(auto)]

pub mod laws;
pub mod parts;
pub mod quotas;
pub mod ranges;
pub mod retention;
pub mod uploads;
