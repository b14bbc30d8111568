//! Adds the tenant of a file to the host of another.

ghost use Rattle.std.specs.Prelude.{◌≡◌, ◌++◌, false, codes, IfOk, MatchResult, MatchOption};
ghost use Rattle.std.specs.String.{string_bytes};
ghost use Rattle.sqlite.specs.Files.{over_files};
ghost use Rattle.sqlite_wal.specs.Files.{image_at};
ghost use Rattle.bh_maintenance.specs.Clocks.{is_beyond, moment_of};
ghost use Rattle.bh_maintenance.specs.Files.{HoldsSoundHost};
ghost use Rattle.bh_maintenance.specs.Found.{IsJoinedByRow};
ghost use Rattle.bh_maintenance.specs.Moves.{Stays, TellsName, HasNoName, IsOneName, Imports, IsImportedInto, ImportsTo, IsImportedOf};
ghost use Rattle.bh_maintenance.specs.Moves.{IsImported};
ghost use Rattle.bh_maintenance.specs.Printing.{IsLine};

use crate::clocks::{ClockRead, is_beyond, moment_of};
use crate::ending::{Done, Ended, close, leave, let_go};
use crate::fault::Fault;
use crate::files::host_in;
use crate::joined::Joined;
use crate::moves::move_and_tell;
use crate::printed::Printed;
use crate::remarks::{Ahead, Remark, tell};
use bh_file::{HostFile, Meter, Work};
use bh_moved::sole_tenant;
use bh_shelf::closed::ClosedPacks;
use bh_shelf::shelf::Shelf;
use bh_types::refusal::Refusal;
use sqlite::{Alter, Error, FileStore, Files, Start};
use sqlite_disk::Disk;
use std::alloc::{AllocError, Global};

/// The result of an import: the printed text, and the closed files of both hosts and their packs, as
/// far as they were opened.
#[derive(Drop)]
pub struct Imported<D: Disk + Drop, P: Drop, E: Disk + Drop, Q: Drop> {
    pub printed: Printed,
    /// The host's.
    pub files: Option<Files<D>>,
    pub packs: Option<P>,
    /// The exported tenant's.
    pub given: Option<Files<E>>,
    pub given_packs: Option<Q>,
}

impl<D: Disk + Drop, P: Drop, E: Disk + Drop, Q: Drop> Imported<D, P, E, Q> {
    /// The printed text. The files are closed, so that another process may open them.
    pub fn into_printed(self) -> Printed
        ensures { result ≡ self.printed }
    {
        let Imported {
            printed,
            files: _,
            packs: _,
            given: _,
            given_packs: _,
        } = self;
        printed
    }
}

/// The printed text, and the closed files of a host with its packs, as far as they were opened.
#[derive(Drop)]
struct Parted<D: Disk + Drop, P: Drop> {
    printed: Printed,
    files: Option<Files<D>>,
    packs: Option<P>,
}

/// The name of a host's only tenant, or the printed text if it has none or several.
fn name_or_told(
    rt: &HostRuntime,
    path: &str,
    found: Result<Option<String>, Error>,
) -> Result<Result<String, Printed>, AllocError>
    ensures { IfOk result (TellsName found) }
{
    match found {
        Ok(Some(name)) => Ok(Ok(name)),
        Ok(None) => {
            tell(rt, path, &Remark::NotOneTenant);
            Ok(Err(Printed::refusal(rt.alloc(), Refusal::NotAHostFile)?))
        }
        Err(error) => {
            tell(rt, path, &Remark::Trouble(error));
            Ok(Err(Printed::fault(rt.alloc())?))
        }
    }
}

/// The name of a host's only tenant, or the printed text if it has none or several.
fn name_in<S: Alter + Drop, P: Shelf + Drop>(
    rt: &HostRuntime,
    path: &str,
    host: &mut Joined<S, P>,
) -> Result<Result<String, Printed>, AllocError>
    requires { IsJoinedByRow S.Store P.Shelf host.old }
    ensures same { host.new ≡ record host.old { connection = host.new.connection } }
    ensures stays { Stays S.Store P.Shelf host.old.connection host.new.connection }
    ensures name { IfOk result (λ found. MatchResult found
        (λ name. IsOneName S.Store P.Shelf host.old.connection host.new.connection (string_bytes name)) HasNoName) }
{
    let found = sole_tenant(&mut host.connection);
    name_or_told(rt, path, found)
}

/// The line for an imported tenant.
fn tenant_line(alloc: Global, tenant: &str) -> Result<Printed, AllocError>
    ensures { IfOk result (IsLine (codes "tenant " ++ tenant.now)) }
{
    let mut line = Vec::from_slice(alloc, b"tenant ")?;
    line.extend_from_slice(tenant.as_bytes())?;
    Printed::line(alloc, line.as_slice())
}

/// Moves the only tenant of a host into another, which prints `tenant` and its name.
fn import_one<S: Alter + Drop, P: Shelf + Drop, T: Alter + Drop, Q: Shelf + Drop>(
    rt: &HostRuntime,
    path: &str,
    from_path: &str,
    from: &mut Joined<S, P>,
    to: &mut Joined<T, Q>,
    clock: ClockRead,
) -> Result<Printed, AllocError>
    requires from { IsJoinedByRow S.Store P.Shelf from.old }
    requires to { IsJoinedByRow T.Store Q.Shelf to.old }
    requires limits { from.old.limits ≡ to.old.limits }
    requires in_time { is_beyond clock.leap (moment_of clock to.old.latest) from.old.latest ≡ false }
    ensures { IfOk result (Imports clock S.Store P.Shelf T.Store Q.Shelf from.old to.old from.new.connection to.new.connection) }
{
    match name_in(rt, from_path, from)? {
        Ok(tenant) => {
            let name = tenant.as_str();
            let line = tenant_line(rt.alloc(), name)?;
            let meter = Meter::of_file(rt, Work::Import, from_path);
            move_and_tell(rt, path, from, to, name, line, meter)
        }
        Err(printed) => Ok(printed),
    }
}

/// Imports the only tenant, if the limits of both hosts are the same, and the first one's last stamp
/// isn't too far ahead of the clock and the second one's.
fn import_from<S: Alter + Drop, P: Shelf + Drop, T: Alter + Drop, Q: Shelf + Drop>(
    rt: &HostRuntime,
    path: &str,
    from_path: &str,
    from: &mut Joined<S, P>,
    to: &mut Joined<T, Q>,
    clock: ClockRead,
) -> Result<Printed, AllocError>
    requires from { IsJoinedByRow S.Store P.Shelf from.old }
    requires to { IsJoinedByRow T.Store Q.Shelf to.old }
    ensures { IfOk result (Imports clock S.Store P.Shelf T.Store Q.Shelf from.old to.old from.new.connection to.new.connection) }
{
    if from.limits != to.limits {
        tell(rt, from_path, &Remark::OtherLimits);
        return Printed::fault(rt.alloc());
    }
    let moment = moment_of(clock, to.latest);
    if is_beyond(clock.leap, moment, from.latest) {
        let ahead = Ahead {
            latest: moment,
            reading: from.latest,
        };
        tell(rt, from_path, &Remark::StampLeaps(ahead));
        return Printed::fault(rt.alloc());
    }
    import_one(rt, path, from_path, from, to, clock)
}

/// Imports the only tenant into the host of files, and closes them.
fn import_into<S: Alter + Drop, P: Shelf + Drop, D: Disk + Drop, Q: Shelf + Drop>(
    rt: &HostRuntime,
    path: &str,
    from_path: &str,
    from: &mut Joined<S, P>,
    to: Joined<FileStore<D>, Q>,
    clock: ClockRead,
) -> Result<Parted<D, Q>, AllocError>
    requires from { IsJoinedByRow S.Store P.Shelf from.old }
    requires to { IsJoinedByRow over_files Q.Shelf to }
    ensures { IfOk result (λ it. MatchOption it.files ⊥
        (IsImportedInto clock S.Store P.Shelf from.old from.new.connection Q.Shelf to it.printed it.packs)) }
{
    let mut to = to;
    let printed = import_from(rt, path, from_path, from, &mut to, clock)?;
    let (printed, left) = leave(Done {
        printed,
        connection: to.connection.database,
    });
    Ok(Parted {
        printed,
        files: Some(close(left)),
        packs: Some(to.connection.packs),
    })
}

/// Opens the host that the tenant is added to, adds it, and closes the host's files.
fn import_to<F: Alter + Drop, P: Shelf + Drop, S: Start, K: ClosedPacks + Drop>(
    rt: &HostRuntime,
    path: &str,
    start: S,
    closed: K,
    from_path: &str,
    from: &mut Joined<F, P>,
    clock: ClockRead,
) -> Result<Parted<HostFile<S>, K::Open>, Fault>
    requires host { HoldsSoundHost (K.has closed) (image_at S.Start) }
    requires from { IsJoinedByRow F.Store P.Shelf from.old }
    ensures { IfOk result (λ it. ImportsTo clock F.Store P.Shelf from.old from.new.connection K.Open.Shelf ⟦<HostFile<S> as Disk>⟧
        (K.has closed) (image_at S.Start) it.printed it.files it.packs) }
{
    match host_in(rt, path, start, closed)? {
        Ok(to) => Ok(import_into(rt, path, from_path, from, to, clock)?),
        Err(Ended { printed, files }) => Ok(Parted {
            printed,
            files,
            packs: None,
        }),
    }
}

/// Imports the only tenant of a host in files, and closes them.
fn import_given<E: Disk + Drop, Q: Shelf + Drop, S: Start, K: ClosedPacks + Drop>(
    rt: &HostRuntime,
    path: &str,
    start: S,
    closed: K,
    from_path: &str,
    from: Joined<FileStore<E>, Q>,
    clock: ClockRead,
) -> Result<Imported<HostFile<S>, K::Open, E, Q>, Fault>
    requires host { HoldsSoundHost (K.has closed) (image_at S.Start) }
    requires from { IsJoinedByRow over_files Q.Shelf from }
    ensures { IfOk result (λ it. MatchOption it.given ⊥ (IsImportedOf clock Q.Shelf from ⟦<HostFile<S> as Disk>⟧ K.Open.Shelf
        (K.has closed) (image_at S.Start) it.printed it.files it.packs it.given_packs)) }
{
    let mut from = from;
    let Parted {
        printed,
        files,
        packs,
    } = import_to(rt, path, start, closed, from_path, &mut from, clock)?;
    Ok(Imported {
        printed,
        files,
        packs,
        given: Some(let_go(from.connection.database)),
        given_packs: Some(from.connection.packs),
    })
}

/// Adds the tenant of an exported file to another file's host, with all its contents, and prints
/// `tenant` and its name. The host's last stamp becomes the later of the two. The exported file
/// doesn't change.
///
/// Either host may have packs. The tenant's large blocks are appended to the host's own, as those of
/// any write.
///
/// `41 TenantExists` if the host has a tenant of this name; `47 NotAHostFile` if either file has no
/// host, or the exported one not exactly one tenant. `fault` if their limits differ, or if the file's
/// last stamp is too far ahead of the host's and the clock: it would end retention early. Then
/// nothing is changed.
pub fn import_file<S: Start, K: ClosedPacks + Drop, U: Start, L: ClosedPacks + Drop>(
    rt: &HostRuntime,
    path: &str,
    start: S,
    closed: K,
    given: &str,
    given_start: U,
    given_closed: L,
    clock: ClockRead,
) -> Result<Imported<HostFile<S>, K::Open, HostFile<U>, L::Open>, Fault>
    requires host { HoldsSoundHost (K.has closed) (image_at S.Start) }
    requires given { HoldsSoundHost (L.has given_closed) (image_at U.Start) }
    ensures { IfOk result (λ it. IsImported clock ⟦<HostFile<S> as Disk>⟧ K.Open.Shelf ⟦<HostFile<U> as Disk>⟧ L.Open.Shelf
        (K.has closed) (image_at S.Start) (L.has given_closed) (image_at U.Start) it.printed it.files it.packs it.given it.given_packs) }
{
    match host_in(rt, given, given_start, given_closed)? {
        Ok(from) => import_given(rt, path, start, closed, given, from, clock),
        Err(
            Ended {
                printed,
                files: given,
            },
        ) => Ok(Imported {
            printed,
            files: None,
            packs: None,
            given,
            given_packs: None,
        }),
    }
}
