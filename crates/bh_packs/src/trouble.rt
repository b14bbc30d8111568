//! Why a call on packs fails.

use std::alloc::AllocError;
use std::{fmt, io};

/// Why a call on packs fails.
#[derive(Drop)]
pub enum Trouble {
    /// There is no pack of this number.
    Missing,
    /// There is one already.
    Taken,
    /// A sync of its file failed before, so nothing more is asked of the file.
    Unusable,
    /// The bytes there don't have the sum of their place.
    Damaged,
    /// The place ends after the last byte that was appended.
    Outside,
    /// The file has fewer bytes than were synced.
    Short,
    /// Someone holds the pack.
    Held,
    /// These are more bytes than a pack may have.
    TooLong,
    /// There are as many packs, or as many holds of one, as may be.
    Full,
    /// There is no memory.
    Memory,
    /// A call on a file failed.
    File(io::Error),
}

impl From<AllocError> for Trouble {
    fn from(_error: AllocError) -> Trouble {
        Trouble::Memory
    }
}

impl From<io::Error> for Trouble {
    fn from(error: io::Error) -> Trouble {
        Trouble::File(error)
    }
}

/// The message to the operator.
impl fmt::Display for Trouble {
    fn fmt<W: fmt::Write>(&self, f: &mut fmt::Formatter<W>) -> fmt::Result {
        match self {
            Trouble::Missing => f.write_str("there is no pack of this number"),
            Trouble::Taken => f.write_str("there is a pack of this number already"),
            Trouble::Unusable => f.write_str("a sync of a pack failed before"),
            Trouble::Damaged => f.write_str("bytes of a pack don't have their sum"),
            Trouble::Outside => f.write_str("a place ends after the last byte of its pack"),
            Trouble::Short => f.write_str("a pack has fewer bytes than were synced"),
            Trouble::Held => f.write_str("a pack is held"),
            Trouble::TooLong => f.write_str("these are more bytes than a pack may have"),
            Trouble::Full => f.write_str("there are as many packs as may be"),
            Trouble::Memory => f.write_str("out of memory"),
            Trouble::File(error) => write!(f, "a pack's file failed: {error}"),
        }
    }
}
