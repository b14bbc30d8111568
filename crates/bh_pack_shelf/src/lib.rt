//! The packs of a host in files: opened by the rows of its database, and copied.
#![tactic(auto)]

mod closed;
mod copying;
mod fault;
mod numbers;
mod opening;
mod shelf;

pub use closed::PackFiles;
pub use copying::Made;
pub use shelf::PackShelf;
