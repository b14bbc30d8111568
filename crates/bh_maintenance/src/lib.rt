//! Work on the file of a host that isn't being served: copies, checks, and moves of tenants.
#![tactic(auto)]

mod backups;
mod checks;
mod clocks;
mod counted;
pub mod ending;
mod exports;
pub mod fault;
pub mod files;
pub mod hosts;
mod imports;
mod joined;
mod leftovers;
mod lost;
mod moves;
pub mod printed;
pub mod remarks;

pub use backups::{BackedUp, HostCopy, backup_file};
pub use checks::{Checked, check_file};
pub use clocks::ClockRead;
pub use exports::{Exported, export_file};
pub use imports::{Imported, import_file};
