ghost use Rattle.std.specs.Prelude.{◌≡◌};
ghost use Rattle.bh_open.specs.Versions.{number_of};

use bh_types::block_digest::BlockDigest;
use bh_types::limits::Limits;

/// The version of a host, by its tables.
#[derive(Clone, Copy)]
pub enum HostVersion {
    /// Its tables of locks, of dates and of tallies are missing, and those that versions 4 and 5
    /// added.
    First,
    /// Its table of tallies is missing, and those that versions 4 and 5 added.
    Second,
    /// Those that versions 4 and 5 added are missing.
    Third,
    /// The one that version 5 added is missing.
    Fourth,
    /// It has all tables.
    Fifth,
}

impl HostVersion {
    /// The number in the host's row.
    pub fn number(self) -> u64
        ensures { result ≡ number_of self }
    {
        match self {
            HostVersion::First => 1,
            HostVersion::Second => 2,
            HostVersion::Third => 3,
            HostVersion::Fourth => 4,
            HostVersion::Fifth => 5,
        }
    }
}

/// The values in a host's row.
#[derive(Clone, Copy)]
pub struct FoundHost {
    /// The version that was found.
    pub version: HostVersion,
    pub limits: Limits,
    /// The function that names its blocks.
    pub digest: BlockDigest,
    /// The last stamp, in seconds since 1970; 0 if there is none.
    pub latest: u64,
}

/// Why a database is not a host's.
#[derive(Clone, Copy)]
pub enum NoHost {
    /// It has no tables.
    NoTable,
    /// Its tables are not a host's.
    OtherTables,
    /// The host has this version by its row, and another by its tables; or it has version 0 by its
    /// tables.
    OtherVersion(u64),
    /// The number of its digest function is unknown to this program.
    OtherDigest(u64),
    /// The host's row is missing or repeated, or its limits are out of range.
    NoRow,
}
