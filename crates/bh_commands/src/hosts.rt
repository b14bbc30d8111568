//! Tasks on a file, done on its connection, whatever disk its files are on.

ghost use Rattle.std.specs.Prelude.{◌≡◌, IfOk, IsTrue, codes};
ghost use Rattle.sqlite.specs.Files.{file_state, over_files};
ghost use Rattle.sqlite.specs.State.{IsLive};
ghost use Rattle.bh_blocks.specs.Digests.{digest_by};
ghost use Rattle.bh_view.specs.Bodies.{IsSoundHost};
ghost use Rattle.bh_schema.specs.Storage.{IsClean, seen};
ghost use Rattle.bh_storage.specs.Calls.{IsAtRest};
ghost use Rattle.bh_maintenance.specs.Found.{IsSoundIn};
ghost use Rattle.bh_maintenance.specs.Printing.{IsFault, IsLine};
ghost use Rattle.bh_commands.specs.Subcommands.{IsReadyFor, host_with, host_by, IsReady, Makes, IsWorkedOn, IsWorkedInTime, Works};
ghost use Rattle.bh_commands.specs.Subcommands.{CarriesOut, LeavesDone};

use crate::asked::{FileTask, Work};
use crate::clocks::{leaps, reading_of};
use crate::commands::do_work;
use bh_base::connection::Connection as Joined;
use bh_blocks::digester::{FastDigester, Sha256Digester};
use bh_create::create;
use bh_kept::{BlockSize, KeptHost};
use bh_maintenance::ending::{Done, Left, leave};
use bh_maintenance::fault::Fault;
use bh_maintenance::hosts::{open_packs, refused, why_not_found};
use bh_maintenance::printed::Printed;
use bh_maintenance::remarks::{Ahead, Remark, tell};
use bh_open::{Opened, is_hosts, open_host};
use bh_schema::host::{Digester, Host};
use bh_shelf::closed::ClosedPacks;
use bh_shelf::copied::CopyShelf;
use bh_shelf::no_shelf::NoShelf;
use bh_types::block_digest::BlockDigest;
use bh_types::limits::{Limits, Tuning};
use bh_types::refusal::Refusal;
use bh_words::ClockGiven;
use sqlite::{Alter, Connection, Error, ErrorCode, FileStore};
use sqlite_disk::Disk;
use std::alloc::{AllocError, Global};
use std::marker::Brand;

/// Why no host was created in a database.
fn why_not_made<S: Alter>(
    alloc: Global,
    cause: Option<Error>,
    connection: &Connection<S>,
) -> Remark {
    if let Some(error) = cause {
        return Remark::Trouble(error);
    }
    match is_hosts(alloc, connection.schema()) {
        Ok(true) => Remark::HasHost,
        Ok(false) => Remark::HasTables,
        Err(error) => Remark::Trouble(error),
    }
}

/// Creates a host in an empty database outside of a transaction, and prints this line.
fn make_outside<D: Disk + Drop>(
    rt: &HostRuntime,
    path: &str,
    connection: Connection<FileStore<D>>,
    limits: Limits,
    digest: BlockDigest,
    line: Printed,
) -> Result<Done<FileStore<D>>, AllocError>
    requires live { IsLive (file_state connection) }
    requires settled { IsTrue (file_state connection).is_open → (file_state connection).now ≡ (file_state connection).committed }
    requires line { IsLine (codes "host") line }
    ensures { IfOk result (λ done. Makes limits digest (file_state connection) (file_state done.connection) done.printed) }
{
    let alloc = rt.alloc();
    let connection = Joined {
        database: connection,
        packs: NoShelf,
    };
    // There are no blocks yet, so any digester will do.
    match create(
        connection,
        Sha256Digester,
        digest,
        limits,
        Tuning::default(),
    ) {
        Ok(host) => Ok(Done {
            printed: line,
            connection: host.into_connection().database,
        }),
        Err(error) => {
            let database = error.connection.database;
            tell(rt, path, &why_not_made(alloc, error.cause, &database));
            Ok(refused(alloc, database, error.refusal)?)
        }
    }
}

/// Creates a host in an empty database, and prints `host`.
fn make<D: Disk + Drop>(
    rt: &HostRuntime,
    path: &str,
    connection: Connection<FileStore<D>>,
    limits: Limits,
    digest: BlockDigest,
) -> Result<Done<FileStore<D>>, AllocError>
    ensures { IfOk result (λ done. Makes limits digest (file_state connection) (file_state done.connection) done.printed) }
{
    let line = Printed::line(rt.alloc(), b"host")?;
    // Called for its contract: the trees list the schema.
    let _schema = connection.schema();
    if !connection.is_autocommit() {
        let error = Error::SqliteFailure(ErrorCode::TransactionState);
        tell(rt, path, &Remark::Trouble(error));
        return Ok(refused(rt.alloc(), connection, Refusal::Unavailable)?);
    }
    Ok(make_outside(rt, path, connection, limits, digest, line)?)
}

/// Does the work on a host at a reading of the clock. Its blocks have the size of `B`.
fn work_on<D: Disk + Drop, P: CopyShelf + Drop, G: Digester + Drop, B: BlockSize>(
    rt: &HostRuntime,
    host: Host<FileStore<D>, P, G>,
    reading: u64,
    asked: Work,
) -> Result<Done<FileStore<D>>, Fault>
    requires rest { IsClean over_files P.Shelf host → IsAtRest (IsSoundHost G.digest_of) (seen over_files P.Shelf host) }
    requires size { host.cache.tuning.block_size ≡ B.size }
    ensures { IfOk result (λ done. IsWorkedOn P.Shelf B.BlockSize G.digest_of asked reading host
        done.connection done.printed) }
{
    let mut kept = KeptHost::<'_, D, P, G, B>::new(rt, host);
    let printed = do_work(rt, &mut kept, reading, asked)?;
    match kept.into_connection() {
        Some(connection) => Ok(Done {
            printed,
            connection,
        }),
        None => Err(Fault::LostHost),
    }
}

/// The result if the clock is too far ahead; the connection doesn't change.
fn held_back<D: Disk + Drop>(
    rt: &HostRuntime,
    path: &str,
    connection: Connection<FileStore<D>>,
    ahead: Ahead,
) -> Result<Done<FileStore<D>>, AllocError>
    ensures { IfOk result (λ done. (done.connection ≡ connection) × IsFault done.printed) }
{
    let printed = Printed::fault(rt.alloc())?;
    tell(rt, path, &Remark::Leaps(ahead));
    Ok(Done {
        printed,
        connection,
    })
}

/// Before a report, prints the last stamp on standard error.
fn tell_stamp(rt: &HostRuntime, path: &str, asked: &Work, latest: u64) {
    if asked.is_report() {
        tell(rt, path, &Remark::LastStamp(latest));
    }
}

/// Does the work on a host with this last stamp, unless the clock is too far ahead.
fn work_in_time<D: Disk + Drop, P: CopyShelf + Drop, G: Digester + Drop>(
    rt: &HostRuntime,
    path: &str,
    host: Host<FileStore<D>, P, G>,
    latest: u64,
    clock: ClockGiven,
    asked: Work,
) -> Result<Done<FileStore<D>>, Fault>
    requires { IsReady P.Shelf G.digest_of latest host }
    ensures { IfOk result (λ done. IsWorkedInTime P.Shelf G.digest_of clock asked host done.connection done.printed) }
{
    let reading = reading_of(rt, clock.at)?;
    if leaps(clock.leap, latest, reading) {
        let ahead = Ahead { latest, reading };
        return Ok(held_back(rt, path, host.into_connection().database, ahead)?);
    }
    tell_stamp(rt, path, &asked, latest);
    Ok(work_on::<D, P, G, Brand>(rt, host, reading, asked)?)
}

/// Does the work on an opened database and its packs, with the digester of the function that names its
/// blocks.
fn work_by<D: Disk + Drop, P: CopyShelf + Drop, G: Digester + Drop>(
    rt: &HostRuntime,
    path: &str,
    opened: Opened<FileStore<D>>,
    packs: P,
    digester: G,
    clock: ClockGiven,
    asked: Work,
) -> Result<Done<FileStore<D>>, Fault>
    requires { IsReady P.Shelf G.digest_of opened.latest (host_with opened packs digester) }
    ensures { IfOk result (λ done. IsWorkedInTime P.Shelf G.digest_of clock asked (host_with opened packs digester)
        done.connection done.printed) }
{
    let latest = opened.latest;
    work_in_time(
        rt,
        path,
        opened.into_host(packs, digester),
        latest,
        clock,
        asked,
    )
}

/// Does the work with the digester of the function in the host's row.
fn work_by_digest<D: Disk + Drop, P: CopyShelf + Drop>(
    rt: &HostRuntime,
    path: &str,
    opened: Opened<FileStore<D>>,
    packs: P,
    clock: ClockGiven,
    asked: Work,
) -> Result<Done<FileStore<D>>, Fault>
    requires { IsReady P.Shelf (digest_by opened.digest) opened.latest (host_by opened.digest opened packs) }
    ensures { IfOk result (λ done. IsWorkedInTime P.Shelf (digest_by opened.digest) clock asked (host_by opened.digest opened packs)
        done.connection done.printed) }
{
    match opened.digest {
        BlockDigest::Sha256 => work_by(rt, path, opened, packs, Sha256Digester, clock, asked),
        BlockDigest::Fast => work_by(rt, path, opened, packs, FastDigester, clock, asked),
    }
}

/// Opens the host of a database and the packs that it lists, and does the work on it.
fn find<D: Disk + Drop, K: ClosedPacks + Drop>(
    rt: &HostRuntime,
    path: &str,
    connection: Connection<FileStore<D>>,
    closed: K,
    tuning: Tuning,
    clock: ClockGiven,
    asked: Work,
) -> Result<Done<FileStore<D>>, Fault>
    requires { IsSoundIn (K.has closed) (file_state connection) }
    ensures { IfOk result (λ done. Works K.Open.Shelf (K.has closed) tuning clock asked connection done.connection done.printed) }
{
    match open_host(rt.alloc(), connection, tuning) {
        Ok(opened) => {
            let packs = open_packs(rt.alloc(), path, closed, opened.listed.as_slice())?;
            Ok(work_by_digest(rt, path, opened, packs, clock, asked)?)
        }
        Err(error) => {
            tell(rt, path, &why_not_found(error.why, error.cause));
            Ok(refused(rt.alloc(), error.connection, error.refusal)?)
        }
    }
}

fn carry_out<D: Disk + Drop, K: ClosedPacks + Drop>(
    rt: &HostRuntime,
    path: &str,
    connection: Connection<FileStore<D>>,
    closed: K,
    asked: FileTask,
) -> Result<Done<FileStore<D>>, Fault>
    requires { IsReadyFor (K.has closed) asked (file_state connection) }
    ensures { IfOk result (λ done. CarriesOut K.Open.Shelf (K.has closed) asked connection done.connection done.printed) }
{
    match asked {
        FileTask::Init { limits, digest } => Ok(make(rt, path, connection, limits, digest)?),
        FileTask::Host {
            tuning,
            clock,
            work,
        } => Ok(find(rt, path, connection, closed, tuning, clock, work)?),
    }
}

/// Does the task on a connection. Returns the printed text and the rest of the connection.
pub(crate) fn on_connection<D: Disk + Drop, K: ClosedPacks + Drop>(
    rt: &HostRuntime,
    path: &str,
    connection: Connection<FileStore<D>>,
    closed: K,
    asked: FileTask,
) -> Result<(Printed, Left<FileStore<D>>), Fault>
    requires { IsReadyFor (K.has closed) asked (file_state connection) }
    ensures { IfOk result (λ it. LeavesDone K.Open.Shelf (K.has closed) asked connection it.0 it.1) }
{
    let done = carry_out(rt, path, connection, closed, asked)?;
    Ok(leave(done))
}
