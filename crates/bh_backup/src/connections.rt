//! Copies a connection's database to a disk.

ghost use Rattle.std.specs.Prelude.{IfOk, IsTrue};
ghost use Rattle.sqlite.specs.Closing.{IsCopied};
ghost use Rattle.sqlite.specs.Files.{file_state};
ghost use Rattle.sqlite.specs.Held.{state};
ghost use Rattle.sqlite.specs.State.{IsLive};
ghost use Rattle.sqlite_wal.specs.Reads.{AreClean, IsClean};
ghost use Rattle.bh_backup.specs.Copies.{HasAlone, IsFileOf};

use crate::disks::copy_disk;
use crate::fault::BackupFault;
use sqlite::{Alter, Connection, FileStore, Files};
use sqlite_disk::Disk;

/// Until a fault shuts a connection, its databases have their schemas.
fn look<S: Alter>(connection: &Connection<S>)
    ensures { IsLive (state S.Store connection.now) }
{
    let _schema = connection.schema();
}

/// Closes the files of a connection, copies the log into the database file, and copies that file to
/// another disk. Neither has uncommitted changes. If it fails, the other disk has no copy, and the
/// files keep their contents.
pub fn back_up<D: Disk + Drop, E: Disk>(
    rt: &HostRuntime,
    connection: Connection<FileStore<D>>,
    to: &mut E,
) -> Result<Files<D>, BackupFault>
    requires { IsTrue (E.Disk.is_usable to.old) }
    ensures kept { IfOk result (λ files. AreClean D.Disk files.log files.db → IsCopied connection files) }
    ensures copied { IfOk result (λ files. AreClean D.Disk files.log files.db → IsFileOf E.Disk (file_state connection).committed to.new) }
    ensures whole { IfOk result (λ files. IsClean D.Disk files.db → HasAlone E.Disk (D.Disk.seen files.db) to.new) }
{
    look(&connection);
    let mut files = match connection.close_files() {
        Ok(files) => files,
        Err((error, _)) => return Err(BackupFault::Log(error)),
    };
    copy_disk(rt, &mut files.db, to)?;
    Ok(files)
}
