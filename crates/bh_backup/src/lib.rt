//! Backups: copies of a host's file in a new file, and of its packs beside it.
#![tactic(auto)]

mod connections;
mod disks;
mod fault;
pub mod laws;
mod leftovers;
mod names;
mod packs;
mod saving;

pub use connections::back_up;
pub use disks::copy_disk;
pub use fault::BackupFault;
pub use leftovers::{made_here, refuse_foreign};
pub use names::refuse_taken;
pub use saving::{HostCopy, Saved, save, save_files};
