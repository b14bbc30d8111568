//! A file for bytes that have no room in memory.

ghost use Rattle.std.specs.Prelude.{◌≡◌, ◌≤◌, ◌+◌, ◌-◌, length};
ghost use Rattle.bh_stage.specs.Records.{bytes_of};

use crate::record::ROOM;
use http_server::Log;
use std::fs::File;

/// A file of which bytes are read in the order in which they were written, with a record of both. No
/// contract can promise what a file returns: that it is what was written is a premise.
#[derive(Drop)]
pub struct Spool {
    pub(crate) file: File,
    pub(crate) written: u64,
    pub(crate) read: u64,
    /// The record of what was written, and of what was read.
    pub(crate) put: Log<usize, [u8; ROOM]>,
    pub(crate) got: Log<usize, [u8; ROOM]>,
    ghost within: { read ≤ written },
    ghost left: { (written - read) + length (bytes_of got.items) ≡ length (bytes_of put.items) },
}
