//! Opens the files of a host's database.
#![tactic(auto)]

mod fault;
mod look;
mod meter;
mod opening;
mod progress;
mod watched;

pub use fault::OpenFault;
pub use meter::Meter;
pub use opening::{FileConnection, HostFile, open_database, open_file, open_files};
pub use progress::{Progress, Work};
pub use watched::Watched;
