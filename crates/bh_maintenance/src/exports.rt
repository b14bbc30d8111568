//! Copies a tenant of a file's host to a new file.

ghost use Rattle.std.specs.Prelude.{◌≡◌, IfOk, MatchOption, MatchResult};
ghost use Rattle.sqlite.specs.Files.{over_files};
ghost use Rattle.sqlite_wal.specs.Files.{image_at};
ghost use Rattle.bh_maintenance.specs.Files.{HoldsSoundHost};
ghost use Rattle.bh_maintenance.specs.Found.{IsJoinedByRow};
ghost use Rattle.bh_maintenance.specs.Moves.{IsLike, Exports, ExportsTo, SavesMoved, IsExportedFrom, IsExported};
ghost use Rattle.bh_maintenance.specs.Printing.{IsFault};

use crate::ending::{Done, Ended, let_go};
use crate::fault::Fault;
use crate::files::{host_in, open};
use crate::hosts::why_not_found;
use crate::joined::Joined;
use crate::leftovers::Making;
use crate::moves::move_and_tell;
use crate::printed::Printed;
use crate::remarks::tell;
use bh_backup::{BackupFault, refuse_foreign, refuse_taken, save};
use bh_base::connection::Connection as Packed;
use bh_blocks::digester::Sha256Digester;
use bh_create::create;
use bh_file::{HostFile, Meter, Work};
use bh_shelf::closed::ClosedPacks;
use bh_shelf::no_shelf::NoShelf;
use bh_shelf::shelf::Shelf;
use bh_types::limits::Tuning;
use sqlite::{Alter, Connection, FileStore, Files, Start};
use sqlite_disk::Disk;
use std::alloc::AllocError;

/// The result of an export: the printed text, the host's files and its packs, if there were any, and
/// the files in which the tenant's host was made. These have a copy, if one was made. All files of
/// databases are closed.
#[derive(Drop)]
pub struct Exported<D: Disk + Drop, P: Drop, M: Disk + Drop, E: Disk + Drop> {
    pub printed: Printed,
    pub files: Option<Files<D>>,
    pub packs: Option<P>,
    pub made: Option<Files<M>>,
    pub copy: Option<E>,
}

impl<D: Disk + Drop, P: Drop, M: Disk + Drop, E: Disk + Drop> Exported<D, P, M, E> {
    /// The printed text. The files are closed, so that another process may open them.
    pub fn into_printed(self) -> Printed
        ensures { result ≡ self.printed }
    {
        let Exported {
            printed,
            files: _,
            packs: _,
            made: _,
            copy: _,
        } = self;
        printed
    }
}

/// The printed text, the closed files in which a host was made, and the copy.
#[derive(Drop)]
struct Made<M: Disk + Drop, E: Disk + Drop> {
    printed: Printed,
    files: Option<Files<M>>,
    copy: Option<E>,
}

/// The outcome, or the fault that no file was saved at this path.
fn or_unsaved(rt: &HostRuntime, to: &str, outcome: Result<(), BackupFault>) -> Result<(), Fault> {
    match outcome {
        Ok(()) => Ok(()),
        Err(reason) => Err(Fault::unsaved(rt.alloc(), to, reason)),
    }
}

/// A new host in an empty database, with another host's limits and digest function, or `fault`. It has
/// no packs: all bytes go to its database.
fn host_like<S: Alter + Drop, P: Shelf + Drop, T: Alter + Drop>(
    rt: &HostRuntime,
    host: &Joined<S, P>,
    path: &str,
    connection: Connection<T>,
) -> Result<Result<Joined<T, NoShelf>, Done<T>>, AllocError>
    ensures { IfOk result (λ made. MatchResult made (IsLike T.Store host.now) (λ done. IsFault done.printed)) }
{
    // There are no blocks yet, so any digester will do.
    let (limits, tuning) = (host.limits, Tuning::default());
    let connection = Packed {
        database: connection,
        packs: NoShelf,
    };
    match create(connection, Sha256Digester, host.digest, limits, tuning) {
        Ok(made) => Ok(Ok(Joined {
            connection: made.into_connection(),
            limits,
            tuning,
            digest: host.digest,
            latest: 0,
        })),
        Err(error) => {
            tell(rt, path, &why_not_found(None, error.cause));
            Ok(Err(Done {
                printed: Printed::fault(rt.alloc())?,
                connection: error.connection.database,
            }))
        }
    }
}

/// Copies a tenant of a host to a new one with the same settings, and prints `export`.
fn bring_to<S: Alter + Drop, P: Shelf + Drop, T: Alter + Drop>(
    rt: &HostRuntime,
    host: &mut Joined<S, P>,
    path: &str,
    made: Joined<T, NoShelf>,
    tenant: &str,
) -> Result<Done<T>, AllocError>
    requires host { IsJoinedByRow S.Store P.Shelf host.old }
    requires made { IsLike T.Store host.old made }
    ensures { IfOk result (λ done. Exports S.Store P.Shelf tenant.now host.old host.new.connection done.printed T.Store done.connection) }
{
    let mut made = made;
    let line = Printed::line(rt.alloc(), b"export")?;
    let meter = Meter::new(rt, Work::Export, 0);
    let printed = move_and_tell(rt, path, host, &mut made, tenant, line, meter)?;
    Ok(Done {
        printed,
        connection: made.connection.database,
    })
}

/// Copies a tenant to a new host in an empty database.
fn fill<S: Alter + Drop, P: Shelf + Drop, T: Alter + Drop>(
    rt: &HostRuntime,
    host: &mut Joined<S, P>,
    path: &str,
    connection: Connection<T>,
    tenant: &str,
) -> Result<Done<T>, AllocError>
    requires { IsJoinedByRow S.Store P.Shelf host.old }
    ensures { IfOk result (λ done. Exports S.Store P.Shelf tenant.now host.old host.new.connection done.printed T.Store done.connection) }
{
    match host_like(rt, host, path, connection)? {
        Ok(made) => bring_to(rt, host, path, made, tenant),
        Err(done) => Ok(done),
    }
}

/// Copies a host that has the tenant to the new file, or closes it if it doesn't have the tenant.
fn save_moved<D: Disk + Drop, W: Start>(
    rt: &HostRuntime,
    done: Done<FileStore<D>>,
    to: &str,
    to_start: W,
) -> Result<Made<D, HostFile<W>>, Fault>
    ensures { IfOk result (λ it. (it.printed ≡ done.printed)
        × SavesMoved ⟦<HostFile<W> as Disk>⟧ done.connection done.printed it.files it.copy) }
{
    let Done {
        printed,
        connection,
    } = done;
    if printed.status != 0 {
        return Ok(Made {
            printed,
            files: Some(let_go(connection)),
            copy: None,
        });
    }
    // It has no packs.
    match save(rt, connection, &mut NoShelf, to, to_start) {
        Ok(saved) => Ok(Made {
            printed,
            files: Some(saved.files),
            copy: Some(saved.copy.file),
        }),
        Err(reason) => Err(Fault::unsaved(rt.alloc(), to, reason)),
    }
}

/// Fills the file in which the tenant's host is made, and copies it to the new one.
fn export_to<S: Alter + Drop, P: Shelf + Drop, U: Start, W: Start>(
    rt: &HostRuntime,
    host: &mut Joined<S, P>,
    path: &str,
    tenant: &str,
    to: &str,
    made_start: U,
    to_start: W,
) -> Result<Made<HostFile<U>, HostFile<W>>, Fault>
    requires { IsJoinedByRow S.Store P.Shelf host.old }
    ensures { IfOk result (λ it. ExportsTo S.Store P.Shelf tenant.now host.old host.new.connection it.printed
        ⟦<HostFile<U> as Disk>⟧ ⟦<HostFile<W> as Disk>⟧ it.files it.copy) }
{
    let connection = open(rt, path, made_start)?;
    let done = fill(rt, host, path, connection, tenant)?;
    save_moved(rt, done, to, to_start)
}

/// Exports a tenant of a host in files, and closes them. What was made beside the new file is
/// removed.
fn export_from<D: Disk + Drop, P: Shelf + Drop, U: Start, W: Start>(
    rt: &HostRuntime,
    host: Joined<FileStore<D>, P>,
    tenant: &str,
    to: &str,
    made_start: U,
    to_start: W,
) -> Result<Exported<D, P, HostFile<U>, HostFile<W>>, Fault>
    requires { IsJoinedByRow over_files P.Shelf host }
    ensures { IfOk result (λ it. MatchOption it.files ⊥ (IsExportedFrom D.Disk P.Shelf ⟦<HostFile<U> as Disk>⟧
        ⟦<HostFile<W> as Disk>⟧ tenant.now host it.printed it.made it.copy it.packs)) }
{
    let mut host = host;
    let making = Making::of(rt, to)?;
    or_unsaved(rt, to, making.clear(rt))?;
    let path = making.file.as_str();
    let outcome = export_to(rt, &mut host, path, tenant, to, made_start, to_start);
    making.discard(rt);
    let Made {
        printed,
        files,
        copy,
    } = outcome?;
    Ok(Exported {
        printed,
        files: Some(let_go(host.connection.database)),
        packs: Some(host.connection.packs),
        made: files,
        copy,
    })
}

/// Copies a tenant of a file's host, with all its contents, to a new host in a new file, `to`, and
/// prints `export`. The new host has the old one's limits, digest function and last stamp, and no
/// packs. No timestamp is taken, and the old host doesn't change.
///
/// The new host is made in a file of that name with `.moving` appended, and then copied as a backup
/// is. Before it prints, the new file is complete and synced; if it fails, there is none.
/// `42 NoSuchTenant` if the host doesn't have the tenant. If the `.moving` file or its log exists and
/// no export made it, that is a fault, and it isn't removed. So is another program's database in the
/// `.partial` file.
pub fn export_file<S: Start, K: ClosedPacks + Drop, U: Start, W: Start>(
    rt: &HostRuntime,
    path: &str,
    start: S,
    closed: K,
    tenant: &str,
    to: &str,
    made_start: U,
    to_start: W,
) -> Result<Exported<HostFile<S>, K::Open, HostFile<U>, HostFile<W>>, Fault>
    requires { HoldsSoundHost (K.has closed) (image_at S.Start) }
    ensures { IfOk result (λ it. IsExported ⟦<HostFile<S> as Disk>⟧ K.Open.Shelf ⟦<HostFile<U> as Disk>⟧ ⟦<HostFile<W> as Disk>⟧
        tenant.now (K.has closed) (image_at S.Start) it.printed it.files it.packs it.made it.copy) }
{
    or_unsaved(rt, to, refuse_taken(rt, to))?;
    or_unsaved(rt, to, refuse_foreign(rt, to))?;
    match host_in(rt, path, start, closed)? {
        Ok(host) => export_from(rt, host, tenant, to, made_start, to_start),
        Err(Ended { printed, files }) => Ok(Exported {
            printed,
            files,
            packs: None,
            made: None,
            copy: None,
        }),
    }
}
