ghost use Rattle.std.specs.Prelude.{◌≡◌, IfOk, IsTrue};
ghost use Rattle.sqlite.specs.Effect.{Database, IsDatabase};
ghost use Rattle.sqlite.specs.Tree.{Trees};
ghost use Rattle.sqlite.specs.State.{HasCleanDisk};
ghost use Rattle.sqlite.specs.Files.{file_state, image_of, IsOpened};
ghost use Rattle.sqlite_wal.specs.Files.{outcomes};
ghost use Rattle.sqlite_wal.specs.Reads.{AreClean};

use sqlite::{Connection, Error, FileStore, Files, Options};
use sqlite_disk::Crash;
use std::alloc::Global;

/// The machine stops, and starts again: each file has contents that it may have then.
pub fn stop<D: Crash>(files: &mut Files<D>)
    ensures left { outcomes D.Disk files.old.log files.old.db (image_of D.Disk files.new) }
    ensures usable { IsTrue (D.Disk.is_usable files.new.log) × IsTrue (D.Disk.is_usable files.new.db) }
    ensures clean { AreClean D.Disk files.new.log files.new.db → AreClean D.Disk files.old.log files.old.db }
{
    files.log.crash();
    files.db.crash();
}

/// Stops the machine under a connection, in any state, and opens its files again.
///
/// The opened database is one that a crash at that moment may leave; if there is only one, it is
/// that one.
pub fn stop_and_open<D: Crash + Drop>(
    alloc: Global,
    connection: Connection<FileStore<D>>,
    options: Options,
) -> Result<Connection<FileStore<D>>, Error>
    ensures intact { IfOk result (λ again. HasCleanDisk (file_state again) → HasCleanDisk (file_state connection)) }
    ensures opened { IfOk result (λ again. HasCleanDisk (file_state again) → IsOpened again) }
    ensures left { IfOk result (λ again. HasCleanDisk (file_state again)
        → ∥ (file_state connection).may_leave (file_state again).committed.trees ∥₁) }
    ensures found { IfOk result (λ again. HasCleanDisk (file_state again) → (kept : Database) → IsDatabase kept
        → ((db : Trees) → (file_state connection).may_leave db → db ≡ kept.trees) → (file_state again).now ≡ kept) }
{
    // Uncommitted changes are lost, and neither call does I/O after which a crash could leave
    // anything new.
    let mut files = connection.into_store().close();
    stop(&mut files);
    match Connection::open_files_with(alloc, files, options, true) {
        Ok(again) => Ok(again),
        Err((error, _)) => Err(error),
    }
}
