ghost use Rattle.std.specs.Prelude.{◌≡◌};
ghost use Rattle.bh_check.specs.Lost.{is_of_bytes};

use crate::rows::Table;
use bh_stored::failure::Failure;
use sqlite_trees::error::StoreError;
use std::alloc::AllocError;
use std::fmt;

/// The first flaw of a host. A row is named by its number, which SQL calls `rowid`.
#[derive(Clone, Copy, PartialEq, Eq)]
pub enum Flaw {
    /// In the tree of this number the row's columns aren't those of its table.
    Columns(u32, u64),
    /// In the tree of this number there is this row, of a table that nothing fills yet.
    Filled(u32, u64),
    /// The host's row is missing, repeated, of another version than its tables, or out of range.
    Host,
    /// A row is invalid for its table: alone, in its counts or sizes, or in its locks or dates.
    Row(Table, u64),
    /// A reference isn't at the place after the earlier ones of its body.
    Place(u64),
    /// A place has no bytes or ends past its pack's length, its block has bytes in its row, or no packs
    /// were given.
    Placed(u64),
    /// A pack hasn't got the bytes of a place.
    Unread(u64),
    /// A part's checksum isn't that of its bytes.
    Checksum(u64),
    /// A block's digest isn't that of its bytes.
    Digest(u64),
    /// A block has an earlier block's bytes.
    Again(u64),
    /// A block's count of uses is missing or wrong.
    Uses(u64),
    /// There isn't exactly one count of uses for each block.
    OtherUses,
    /// A tenant's tally is missing or wrong.
    Tally(u64),
    /// There isn't exactly one tally for each tenant.
    OtherTallies,
    /// The row of what nobody needs is missing or wrong.
    Garbage,
    /// A sum is above 2^64 - 1.
    TooMuch,
}

impl Flaw {
    /// Whether it is of a block's bytes, which packs may have.
    pub(crate) fn is_of_bytes(&self) -> bool
        ensures { result ≡ is_of_bytes self.now }
    {
        matches!(self, Flaw::Unread(_) | Flaw::Digest(_))
    }
}

/// Why a check ends early.
#[derive(Clone, Copy, PartialEq, Eq)]
pub enum Stop {
    /// It found a flaw.
    Flaw(Flaw),
    /// The store failed, or memory ran out.
    Store(StoreError),
}

impl From<AllocError> for Stop {
    fn from(_: AllocError) -> Stop {
        Stop::Store(StoreError::OutOfMemory)
    }
}

impl From<Failure> for Stop {
    fn from(failure: Failure) -> Stop {
        match failure {
            Failure::Store(error) => Stop::Store(error),
            Failure::Misfit(tree, row) => Stop::Flaw(Flaw::Columns(tree, row)),
            Failure::Filled(tree, row) => Stop::Flaw(Flaw::Filled(tree, row)),
            Failure::TooMuch => Stop::Flaw(Flaw::TooMuch),
        }
    }
}

/// The table in a tree of a host's database.
fn table_in<'a>(tree: u32) -> &'a str {
    match tree {
        0 => "host",
        1 => "tenants",
        3 => "keys",
        5 => "buckets",
        7 => "versions",
        10 => "blocks",
        12 => "refs",
        16 => "uploads",
        18 => "parts",
        23 => "uses",
        26 => "locks",
        28 => "retains",
        30 => "tallies",
        32 => "packs",
        34 => "placed",
        37 => "notes",
        39 => "upload_notes",
        41 => "rights",
        43 => "garbage",
        _ => "unneeded",
    }
}

/// The rule for a table's rows, as the operator sees it.
fn demand_of<'a>(table: Table) -> &'a str {
    match table {
        Table::Tenants =>
            "tenants: name, quota or numbers are out of range, or `used` is not what its versions and parts have",
        Table::Keys => "keys: name or secret is out of range",
        Table::Buckets => "buckets: name, moment, state or days are out of range",
        Table::Versions =>
            "versions: key, moment, number or marker is out of range, or its size is not that of its blocks",
        Table::Refs =>
            "refs: no version or part has its body, or its size is not that of its block",
        Table::Uploads =>
            "uploads: key, moment or number is out of range, or `bytes_kept` is not what its parts have",
        Table::Parts =>
            "parts: number, moment or body is out of range or a version's, or its size is not that of its blocks",
        Table::Locked => "buckets: locked, and its versioning is not enabled",
        Table::Dated => "versions: a date, and it is a marker or `null`",
        Table::Kept => "versions: a date, and its bucket is not locked",
        Table::Retains => "retains: a date after the last moment",
    }
}

impl fmt::Display for Flaw {
    fn fmt<W: fmt::Write>(&self, f: &mut fmt::Formatter<W>) -> fmt::Result {
        match self {
            Flaw::Columns(tree, row) => write!(
                f,
                "{}: other columns than a host's, row {row}",
                table_in(*tree)
            ),
            Flaw::Filled(tree, row) => write!(
                f,
                "{}: a row, and this program fills no such table, row {row}",
                table_in(*tree)
            ),
            Flaw::Host => f.write_str("host: not one row of this version, with values in range"),
            Flaw::Row(table, row) => write!(f, "{}, row {row}", demand_of(*table)),
            Flaw::Place(row) => write!(f, "refs: not at the next place of its body, row {row}"),
            Flaw::Placed(row) => write!(
                f,
                "placed: empty, past the length of its pack, of a block with bytes in its row, or without packs, row {row}"
            ),
            Flaw::Unread(row) => write!(f, "placed: a pack hasn't got these bytes, row {row}"),
            Flaw::Checksum(row) => write!(
                f,
                "parts: another checksum than that of its bytes, row {row}"
            ),
            Flaw::Digest(row) => write!(
                f,
                "blocks: another digest than that of its bytes, row {row}"
            ),
            Flaw::Again(row) => write!(f, "blocks: the bytes of another block, row {row}"),
            Flaw::Uses(row) => write!(
                f,
                "uses: not how many references there are to the block, row {row} of blocks"
            ),
            Flaw::OtherUses => f.write_str("uses: not as many rows as blocks"),
            Flaw::Tally(row) => write!(
                f,
                "tallies: not how many versions, markers and objects the tenant has, row {row} of tenants"
            ),
            Flaw::OtherTallies => f.write_str("tallies: not as many rows as tenants"),
            Flaw::Garbage => {
                f.write_str("unneeded: not the bytes of the blocks that no reference names")
            }
            Flaw::TooMuch => f.write_str("sizes: a sum passes 2^64 - 1"),
        }
    }
}
