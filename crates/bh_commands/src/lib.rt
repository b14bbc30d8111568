//! The subcommands of `bucketd`, and their output.
#![tactic(auto)]

mod asked;
mod clocks;
mod commands;
mod files;
mod hosts;

pub use asked::{FileTask, OperatorServing, Serving, Work};
pub use clocks::reading_of;
pub use commands::{apply_order, do_work};
pub use files::{init_file, work_in_file};
