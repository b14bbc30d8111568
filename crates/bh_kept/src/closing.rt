//! Closes a connection's files, so that they can be copied and reopened.

ghost use Rattle.std.specs.Prelude.{◌≡◌, false, IfErr, IfOk, IfSome, IsTrue};
ghost use Rattle.sqlite.specs.Closing.{IsCopied};
ghost use Rattle.sqlite_wal.specs.Reads.{AreClean};
ghost use Rattle.sqlite_store.specs.FileStore.{files as store_files, seems_broken};
ghost use Rattle.bh_kept.specs.Closings.{IsHeldIn};

use sqlite::{Connection, FileStore, Files};
use sqlite_disk::Disk;
use sqlite_trees::error::StoreError;
use sqlite_trees::store::Store;

/// Why a connection's log can't be copied into its database file; and the two closed files, unless
/// the fault has shut them.
#[derive(Drop)]
pub struct Unclosed<D: Disk + Drop> {
    pub error: StoreError,
    pub files: Option<Files<D>>,
}

/// Closes the files of a connection, and copies the log into the database file first. Neither has
/// uncommitted changes.
///
/// If the log isn't copied, as on a full disk, the files together have what was committed, unless a
/// fault has shut them.
pub fn close<D: Disk + Drop>(connection: Connection<FileStore<D>>) -> Result<Files<D>, Unclosed<D>>
    ensures usable { IfOk result (λ files. IsTrue (D.Disk.is_usable files.log) × IsTrue (D.Disk.is_usable files.db)) }
    ensures copied { IfOk result (λ files. AreClean D.Disk files.log files.db → IsCopied connection files) }
    ensures left { IfErr result (λ e. IfSome e.files (λ files.
        IsTrue (D.Disk.is_usable files.log) × IsTrue (D.Disk.is_usable files.db))) }
    ensures held { IfErr result (λ e. IfSome e.files (λ files. AreClean D.Disk files.log files.db → IsHeldIn connection files)) }
{
    let mut store = connection.into_store();
    // Again, for what only this store's rollback says of the log.
    store.rollback();
    match store.checkpoint() {
        Ok(()) => Ok(store.close()),
        Err(error) => Err(files_left(store, error)),
    }
}

/// The files of a store whose log can't be copied.
fn files_left<D: Disk + Drop>(store: FileStore<D>, error: StoreError) -> Unclosed<D>
    ensures { IfSome result.files (λ files. ((files.log, files.db) ≡ store_files store) × (seems_broken store ≡ false)) }
{
    if store.is_broken() {
        return Unclosed { error, files: None };
    }
    Unclosed {
        error,
        files: Some(store.close()),
    }
}
