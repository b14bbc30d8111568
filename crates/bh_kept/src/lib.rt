//! A host in files that can be backed up between two events: its files are closed, copied and
//! reopened.
#![tactic(auto)]

mod closing;
mod copying;
mod counting;
mod freeing;
mod host;
pub mod laws;
mod storage;

pub use closing::{Unclosed, close};
pub use copying::{CopiedHost, KeptCopy, copy_and_open};
pub use host::{BlockSize, KeptHost};
