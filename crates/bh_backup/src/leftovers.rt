//! Databases that a stopped backup or export left beside the name of a new file.

ghost use Rattle.std.specs.Prelude.{◌↔◌, IsTrue, IfOk, IfSome};
ghost use Rattle.sqlite.specs.Files.{file_state};
ghost use Rattle.bh_backup.specs.Leftovers.{IsMadeHere};

use crate::fault::BackupFault;
use crate::names::{Partial, is_taken};
use bh_file::{FileConnection, OpenFault, open_file};
use bh_open::is_hosts;
use sqlite::{Error, Wary};
use sqlite_schema::schema::Schema;
use std::alloc::Global;
use std::fs;

/// Whether a database is empty or has a host's tables: no backup or export makes another one.
fn is_made_here(alloc: Global, schema: &Schema) -> Result<bool, Error>
    ensures { IfOk result (λ is. IsTrue is ↔ IsMadeHere schema.now) }
{
    if schema.tables.is_empty() && schema.indexes.is_empty() && schema.views.is_empty() {
        return Ok(true);
    }
    is_hosts(alloc, schema)
}

/// The database of a file, locked against other processes, or `None` if it is another program's.
/// Beside that one this leaves no new file.
pub fn made_here(
    rt: &HostRuntime,
    file: &str,
    log: &str,
) -> Result<Option<FileConnection<Wary>>, OpenFault>
    ensures { IfOk result (λ made. IfSome made (λ connection. IsMadeHere (file_state connection).now.schema)) }
{
    let had_log = is_taken(rt, log)?;
    let connection = open_file(rt, file, Wary)?;
    match is_made_here(rt.alloc(), connection.schema()) {
        Ok(true) => Ok(Some(connection)),
        Ok(false) => {
            if !had_log {
                let _ = fs::remove_file(rt, log);
            }
            Ok(None)
        }
        Err(error) => Err(OpenFault::Database(error)),
    }
}

/// Fails if the file in which a copy is written first, `.partial`, is another program's database.
/// One that can't be opened is left to the copy: a stop may have cut an earlier one short.
pub fn refuse_foreign(rt: &HostRuntime, path: &str) -> Result<(), BackupFault> {
    let partial = Partial::of(rt, path)?;
    match fs::metadata(rt, partial.file.as_str()) {
        Ok(data) if data.is_file() && data.len() > 0 => {
            match made_here(rt, partial.file.as_str(), partial.log.as_str()) {
                Ok(None) => Err(BackupFault::ForeignPartial),
                Ok(Some(_)) | Err(_) => Ok(()),
            }
        }
        Ok(_) | Err(_) => Ok(()),
    }
}
