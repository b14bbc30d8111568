//! The law of copies, as the contract of a function that does nothing.

ghost use Rattle.bh_backup.specs.Copies.{OpensAlike};

use sqlite_disk::Disk;

/// A connection that is opened on files with a database has that database, such as on a copy
/// without a log.
pub fn opens_alike<D: Disk>()
    ensures { OpensAlike D.Disk }
{}
