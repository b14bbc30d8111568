//! The folder of a host's packs: its files are those of the operating system.
#![tactic(auto)]

mod beside;
mod entries;
mod fault;
mod file;
mod folder;
mod guard;
mod name;
mod record;

pub use fault::{Fault, Shortage};
pub use file::{Held, PackFile, Unknown};
pub use folder::{FolderPath, PackFolder, folder_beside};
