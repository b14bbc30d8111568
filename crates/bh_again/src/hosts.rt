ghost use Rattle.std.specs.Prelude.{◌≡◌, IfOk, IfErr};
ghost use Rattle.sqlite.specs.Effect.{Database};
ghost use Rattle.sqlite.specs.Files.{over_files};
ghost use Rattle.sqlite.specs.Held.{state};
ghost use Rattle.sqlite.specs.State.{IsLive};
ghost use Rattle.sqlite.specs.Tree.{Trees};
ghost use Rattle.bh_model.specs.State.{Octets};
ghost use Rattle.bh_shelf.specs.Contents.{Contents};
ghost use Rattle.bh_view.specs.Bodies.{IsSoundHost};
ghost use Rattle.bh_base.specs.Layer as layer;
ghost use Rattle.bh_base.specs.Layer.{standing, Leaves};
ghost use Rattle.bh_schema.specs.Storage.{IsIntact, IsOpen};
ghost use Rattle.bh_again.specs.Stops.{IsCleanAgain, ComesBack, IsNotNone, kept_of, IsLeft, ArePacksClean, KeepsBytes, AllShown};

use crate::files::stop_and_open;
use bh_base::connection::Connection as Joined;
use bh_open::{OpenError, Opened, open_host};
use bh_schema::host::{Digester, Host};
use bh_shelf::shelf::Shelf;
use bh_types::limits::Tuning;
use sqlite::{Alter, Connection, Error, FileStore, Options};
use sqlite_disk::Crash;
use std::alloc::Global;

/// Why no host could be reopened.
#[derive(Drop)]
pub enum ReopenError<D: Crash + Drop> {
    /// The files have no database: memory or a disk failed.
    Files(Error),
    /// The database has no host.
    Host(OpenError<FileStore<D>>),
}

/// Until a fault shuts a connection, its databases have their schemas, and a crash leaves what was
/// committed.
fn look<S: Alter>(connection: &Connection<S>)
    ensures live { IsLive (state S.Store connection.now) }
    ensures settled { layer.IsOpen (state S.Store connection.now) → (db : Trees) → Leaves (state S.Store connection.now) db
        → db ≡ (standing (state S.Store connection.now)).kept.trees }
{
    let _schema = connection.schema();
}

/// Stops the machine under a host, in any state, and opens its database's files again. The digester must
/// be that of the function that names its blocks, which only the opened file determines.
///
/// If no fault has shut the host, the committed database comes back; otherwise, some database that a
/// crash may leave. A host of an earlier version is upgraded. No pack is opened: what is said of the host
/// that comes back is so with any packs, and with all that a crash may leave of its own the committed
/// database shows what it showed before. If all tables that an open may find are sound, the host is at
/// rest, and `NotAHostFile` is not among the errors.
pub fn stop_and_open_host<D: Crash + Drop, P: Shelf + Drop, G: Digester + Drop>(
    alloc: Global,
    host: Host<FileStore<D>, P, G>,
    options: Options,
    tuning: Tuning,
) -> Result<Opened<FileStore<D>>, ReopenError<D>>
    ensures given { IfOk result (λ opened. opened.tuning ≡ tuning) }
    ensures settled { IsOpen over_files P.Shelf host → (db : Database) → IsLeft host db → db ≡ kept_of host }
    ensures bytes { KeepsBytes P.Shelf host }
    ensures intact { IfOk result (λ opened. IsCleanAgain opened → ArePacksClean P.Shelf host → IsIntact over_files P.Shelf host) }
    ensures came_back { IfOk result (λ opened. IsCleanAgain opened → IsOpen over_files P.Shelf host
        → (packs : Contents) → ComesBack packs (kept_of host) opened) }
    ensures merely { IfOk result (λ opened. IsCleanAgain opened
        → ∥ ((db : Database) × IsLeft host db × ((packs : Contents) → ComesBack packs db opened)) ∥₁) }
    ensures never { (digest : Octets → Octets) → ArePacksClean P.Shelf host
        → (IsIntact over_files P.Shelf host → AllShown P.Shelf (IsSoundHost digest) host) → IfErr result IsNotNone }
{
    let Joined { database, packs: _ } = host.into_connection();
    look(&database);
    let connection = match stop_and_open(alloc, database, options) {
        Ok(connection) => connection,
        Err(error) => return Err(ReopenError::Files(error)),
    };
    match open_host(alloc, connection, tuning) {
        Ok(opened) => Ok(opened),
        Err(error) => Err(ReopenError::Host(error)),
    }
}
