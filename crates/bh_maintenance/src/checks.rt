//! Checks a host's file and its packs.

ghost use Rattle.std.specs.Prelude.{◌≡◌, ◌↔◌, None, Some, Ok, IfOk, IsTrue};
ghost use Rattle.sqlite.specs.Held.{state};
ghost use Rattle.sqlite_wal.specs.Files.{image_at};
ghost use Rattle.bh_shelf.specs.Contents.{Contents};
ghost use Rattle.bh_tables.specs.Schema.{host_schema};
ghost use Rattle.bh_blocks.specs.Digests.{digest_by};
ghost use Rattle.bh_base.specs.Layer.{standing, taken_back, IsStateClean};
ghost use Rattle.bh_migration.specs.Listing.{Lists};
ghost use Rattle.bh_open.specs.Versions.{schema_of, IsHostsSchema};
ghost use Rattle.bh_open.specs.declared.found.HostVersion.TheVariants.{Fifth};
ghost use Rattle.bh_maintenance.specs.Checks.{IsVerdict, IsSoundBy, IsSoundWith, AreListed, IsFoundSound, IsChecked};

use crate::counted::Counted;
use crate::ending::Ended;
use crate::fault::Fault;
use crate::files::{is_blank, open, without_files};
use crate::hosts::{open_packs, why_not_found};
use crate::lost::append_lost;
use crate::printed::Printed;
use crate::remarks::{Remark, tell};
use bh_blocks::digester::{FastDigester, Sha256Digester};
use bh_check::check::{Found, check_connection, check_with_packs};
use bh_check::watch::{Stage, Watch};
use bh_file::{HostFile, Meter, OpenFault, Work};
use bh_open::{FoundHost, HostVersion, look, see_packs};
use bh_schema::host::Digester;
use bh_shelf::closed::{ClosedPacks, Listed};
use bh_shelf::shelf::Shelf;
use bh_types::block_digest::BlockDigest;
use bh_types::refusal::Refusal;
use sqlite::{Alter, Connection, Files, Start};
use sqlite_disk::Disk;
use sqlite_trees::error::StoreError;
use std::alloc::{AllocError, Global};

/// Prints a check's progress on standard error.
#[derive(Drop)]
struct Progress<'a> {
    rt: &'a HostRuntime,
    path: &'a str,
}

impl Watch for Progress<'_> {
    fn at(&mut self, stage: Stage) {
        tell(self.rt, self.path, &Remark::Checking(stage));
    }
}

/// The line that describes a flaw, and a line for each version and upload that is lost by it, with status 1.
fn flawed(alloc: Global, found: &Found) -> Result<Printed, AllocError>
    ensures { IfOk result (λ printed. printed.status ≡ 1) }
{
    let mut text = format!(in alloc; "{}\n", found.flaw)?;
    if let Some(lost) = &found.lost {
        append_lost(alloc, &mut text, lost)?;
    }
    Ok(Printed {
        text: text.into_bytes(),
        status: 1,
    })
}

/// The printed text: `sound`, or the first flaw and what is lost by it.
fn verdict(alloc: Global, found: Option<Found>) -> Result<Printed, AllocError>
    ensures { IfOk result (IsVerdict (found ≡ None)) }
{
    match found {
        None => Ok(Printed::line(alloc, b"sound")?),
        Some(found) => Ok(flawed(alloc, &found)?),
    }
}

/// The printed text if memory or the store failed.
fn unread(rt: &HostRuntime, path: &str, error: StoreError) -> Result<Printed, Fault>
    ensures { IfOk result (λ printed. printed.status ≡ 1) }
{
    if error == StoreError::OutOfMemory {
        return Err(Fault::Memory);
    }
    tell(rt, path, &Remark::Unread(error));
    Ok(Printed::fault(rt.alloc())?)
}

/// The printed text for a check's result.
fn told(
    rt: &HostRuntime,
    path: &str,
    found: Result<Option<Found>, StoreError>,
) -> Result<Printed, Fault>
    ensures { IfOk result (IsVerdict (found ≡ Ok None)) }
{
    match found {
        Ok(found) => Ok(verdict(rt.alloc(), found)?),
        Err(error) => unread(rt, path, error),
    }
}

/// Checks a host's database with a digester. Returns the printed text and the store. If it takes long,
/// standard error shows how far the bytes of blocks are.
fn check_by<S: Alter + Drop, D: Digester>(
    rt: &HostRuntime,
    path: &str,
    connection: Connection<S>,
    digester: &D,
) -> Result<(Printed, S), Fault>
    requires { IsStateClean (state S.Store connection) → IsHostsSchema (state S.Store connection).now.schema }
    ensures { IfOk result (λ it. IsVerdict (IsSoundBy S.Store D.digest_of connection it.1) it.0) }
{
    let mut progress = Progress { rt, path };
    let counted = Counted::new(digester, Meter::of_file(rt, Work::Check, path));
    let (found, store) = check_connection(rt.alloc(), connection, &counted, &mut progress);
    counted.end();
    Ok((told(rt, path, found)?, store))
}

/// Checks a host, with the digester of the function that names its blocks.
fn check_named<S: Alter + Drop>(
    rt: &HostRuntime,
    path: &str,
    connection: Connection<S>,
    digest: BlockDigest,
) -> Result<(Printed, S), Fault>
    requires { IsStateClean (state S.Store connection) → IsHostsSchema (state S.Store connection).now.schema }
    ensures { IfOk result (λ it. IsVerdict (IsSoundBy S.Store (digest_by digest) connection it.1) it.0) }
{
    match digest {
        BlockDigest::Sha256 => check_by(rt, path, connection, &Sha256Digester),
        BlockDigest::Fast => check_by(rt, path, connection, &FastDigester),
    }
}

/// As `check_by`, for a host of the present version and its opened packs.
fn check_packs_by<S: Alter + Drop, P: Shelf, D: Digester>(
    rt: &HostRuntime,
    path: &str,
    connection: Connection<S>,
    packs: &mut P,
    digester: &D,
) -> Result<(Printed, S), Fault>
    requires { IsStateClean (state S.Store connection) → (state S.Store connection).now.schema ≡ host_schema }
    ensures { (has : Contents) → IfOk result (λ it. AreListed S.Store P.Shelf has connection packs.old
        → IsVerdict (IsSoundWith S.Store P.Shelf has D.digest_of connection it.1 (Some packs.new)) it.0) }
{
    let mut progress = Progress { rt, path };
    let counted = Counted::new(digester, Meter::of_file(rt, Work::Check, path));
    let (found, store) = check_with_packs(rt.alloc(), connection, packs, &counted, &mut progress);
    counted.end();
    Ok((told(rt, path, found)?, store))
}

/// As `check_named`, for a host of the present version and its opened packs.
fn check_packs_named<S: Alter + Drop, P: Shelf>(
    rt: &HostRuntime,
    path: &str,
    connection: Connection<S>,
    packs: &mut P,
    digest: BlockDigest,
) -> Result<(Printed, S), Fault>
    requires { IsStateClean (state S.Store connection) → (state S.Store connection).now.schema ≡ host_schema }
    ensures { (has : Contents) → IfOk result (λ it. AreListed S.Store P.Shelf has connection packs.old
        → IsVerdict (IsSoundWith S.Store P.Shelf has (digest_by digest) connection it.1 (Some packs.new)) it.0) }
{
    match digest {
        BlockDigest::Sha256 => check_packs_by(rt, path, connection, packs, &Sha256Digester),
        BlockDigest::Fast => check_packs_by(rt, path, connection, packs, &FastDigester),
    }
}

/// The result of a check of a store: the printed text, the store, and the host's packs, if they were
/// opened.
#[derive(Drop)]
pub(crate) struct CheckedStore<S: Drop, P: Drop> {
    printed: Printed,
    store: S,
    packs: Option<P>,
}

/// The result if there is no host.
fn check_none<S: Alter + Drop, P: Drop>(
    rt: &HostRuntime,
    path: &str,
    connection: Connection<S>,
    refusal: Refusal,
    remark: Remark,
) -> Result<CheckedStore<S, P>, Fault>
    ensures { IfOk result (λ it. it.printed.status ≡ 1) }
{
    tell(rt, path, &remark);
    let printed = Printed::refusal(rt.alloc(), refusal)?;
    Ok(CheckedStore {
        printed,
        store: connection.into_store(),
        packs: None,
    })
}

/// Checks the host of a database of an earlier version. It isn't upgraded, but judged by the tables
/// that it would then have. It has no packs.
fn check_earlier<S: Alter + Drop, P: Shelf + Drop>(
    rt: &HostRuntime,
    path: &str,
    connection: Connection<S>,
    digest: BlockDigest,
) -> Result<CheckedStore<S, P>, Fault>
    requires { IsStateClean (state S.Store connection) → IsHostsSchema (state S.Store connection).now.schema }
    ensures { IfOk result (λ it. IsVerdict (IsSoundBy S.Store (digest_by digest) connection it.store) it.printed) }
{
    let (printed, store) = check_named(rt, path, connection, digest)?;
    Ok(CheckedStore {
        printed,
        store,
        packs: None,
    })
}

/// Opens the packs that rows list, and checks the host of a database of the present version with them.
fn check_listed<S: Alter + Drop, K: ClosedPacks>(
    rt: &HostRuntime,
    path: &str,
    connection: Connection<S>,
    closed: K,
    listed: &[Listed],
    digest: BlockDigest,
) -> Result<CheckedStore<S, K::Open>, Fault>
    requires schema { IsStateClean (state S.Store connection) → (standing (state S.Store connection)).now.schema ≡ host_schema }
    requires listed { IsStateClean (state S.Store connection) → Lists (standing (state S.Store connection)).now listed.now }
    ensures { IfOk result (λ it. IsVerdict
        (IsSoundWith S.Store K.Open.Shelf (K.has closed) (digest_by digest) connection it.store it.packs) it.printed) }
{
    let mut packs = open_packs(rt.alloc(), path, closed, listed)?;
    let (printed, store) = check_packs_named(rt, path, connection, &mut packs, digest)?;
    Ok(CheckedStore {
        printed,
        store,
        packs: Some(packs),
    })
}

/// Checks the host of a database of the present version with the packs that its rows list.
fn check_present<S: Alter + Drop, K: ClosedPacks + Drop>(
    rt: &HostRuntime,
    path: &str,
    connection: Connection<S>,
    closed: K,
    digest: BlockDigest,
) -> Result<CheckedStore<S, K::Open>, Fault>
    requires schema { IsStateClean (state S.Store connection) → (standing (state S.Store connection)).now.schema ≡ host_schema }
    requires settled { IsStateClean (state S.Store connection)
        → taken_back (standing (state S.Store connection)) ≡ standing (state S.Store connection) }
    ensures { IfOk result (λ it. IsVerdict
        (IsSoundWith S.Store K.Open.Shelf (K.has closed) (digest_by digest) connection it.store it.packs) it.printed) }
{
    let mut connection = connection;
    match see_packs(rt.alloc(), &mut connection) {
        Ok(listed) => check_listed(rt, path, connection, closed, &listed, digest),
        Err(error) => {
            let remark = why_not_found(None, Some(error));
            check_none(rt, path, connection, Refusal::Unavailable, remark)
        }
    }
}

/// Whether a version is the present one.
fn is_present(version: HostVersion) -> bool
    ensures { IsTrue result ↔ (version ≡ Fifth) }
{
    matches!(version, HostVersion::Fifth)
}

/// Checks a found host, with its packs if it is of the present version.
fn check_found<S: Alter + Drop, K: ClosedPacks + Drop>(
    rt: &HostRuntime,
    path: &str,
    connection: Connection<S>,
    closed: K,
    found: FoundHost,
) -> Result<CheckedStore<S, K::Open>, Fault>
    requires schema { IsStateClean (state S.Store connection)
        → (standing (state S.Store connection)).now.schema ≡ schema_of found.version }
    requires settled { IsStateClean (state S.Store connection)
        → taken_back (standing (state S.Store connection)) ≡ standing (state S.Store connection) }
    ensures { IfOk result (λ it. IsVerdict
        (IsSoundWith S.Store K.Open.Shelf (K.has closed) (digest_by found.digest) connection it.store it.packs) it.printed) }
{
    if is_present(found.version) {
        check_present(rt, path, connection, closed, found.digest)
    } else {
        check_earlier(rt, path, connection, found.digest)
    }
}

/// Checks the host of a database with the digest function in its row, and with the packs that its rows
/// list. A host of an earlier version isn't upgraded, but judged by the tables that it would then have.
pub(crate) fn check_on<S: Alter + Drop, K: ClosedPacks + Drop>(
    rt: &HostRuntime,
    path: &str,
    connection: Connection<S>,
    closed: K,
) -> Result<CheckedStore<S, K::Open>, Fault>
    ensures { IfOk result (λ it. IsVerdict
        (IsFoundSound S.Store K.Open.Shelf (K.has closed) connection it.store it.packs) it.printed) }
{
    let mut connection = connection;
    match look(rt.alloc(), &mut connection) {
        Ok(Ok(found)) => check_found(rt, path, connection, closed, found),
        Ok(Err(why)) => {
            let remark = why_not_found(Some(why), None);
            check_none(rt, path, connection, Refusal::NotAHostFile, remark)
        }
        Err(error) => {
            let remark = why_not_found(None, Some(error));
            check_none(rt, path, connection, Refusal::Unavailable, remark)
        }
    }
}

/// The result of a check: the printed text; the host's closed files, if there were any; and its packs,
/// if they were opened.
#[derive(Drop)]
pub struct Checked<D: Disk + Drop, P: Drop> {
    pub printed: Printed,
    pub files: Option<Files<D>>,
    pub packs: Option<P>,
}

impl<D: Disk + Drop, P: Drop> Checked<D, P> {
    /// The printed text. The files are closed, so that another process may open them.
    pub fn into_printed(self) -> Printed
        ensures { result ≡ self.printed }
    {
        let Checked {
            printed,
            files: _,
            packs: _,
        } = self;
        printed
    }
}

/// Opens files, checks their host, and closes them.
fn check_files<S: Start, K: ClosedPacks + Drop>(
    rt: &HostRuntime,
    path: &str,
    start: S,
    closed: K,
) -> Result<Checked<HostFile<S>, K::Open>, Fault>
    ensures { IfOk result (λ it. IsChecked ⟦<HostFile<S> as Disk>⟧ K.Open.Shelf (K.has closed) (image_at S.Start)
        it.printed it.files it.packs) }
{
    let connection = open(rt, path, start)?;
    let done = check_on(rt, path, connection, closed)?;
    Ok(Checked {
        printed: done.printed,
        files: Some(done.store.close()),
        packs: done.packs,
    })
}

/// Checks the host of a file and its packs: prints `sound`, or the first flaw. If that is of a block's bytes,
/// a line follows for each version and upload that can't be read.
///
/// If it prints `sound`, the tables that the file and its packs have, once they are opened, are a sound
/// host's, provided that the files returned what was written to them. Soundness is what all other work
/// on a host assumes. The host isn't changed, and one of an earlier version isn't upgraded. Its packs are
/// opened by `closed`: if that only looks, files of packs that no row lists stay. `47 NotAHostFile` if
/// the file is missing or empty, or is another database; `fault` if it or its packs can't be read.
pub fn check_file<S: Start, K: ClosedPacks + Drop>(
    rt: &HostRuntime,
    path: &str,
    start: S,
    closed: K,
) -> Result<Checked<HostFile<S>, K::Open>, Fault>
    ensures { IfOk result (λ it. IsChecked ⟦<HostFile<S> as Disk>⟧ K.Open.Shelf (K.has closed) (image_at S.Start)
        it.printed it.files it.packs) }
{
    match is_blank(rt, path) {
        Ok(false) => check_files(rt, path, start, closed),
        Ok(true) => {
            let Ended { printed, files } = without_files(rt.alloc())?;
            Ok(Checked {
                printed,
                files,
                packs: None,
            })
        }
        Err(error) => Err(Fault::unopened(rt.alloc(), path, OpenFault::from(error))),
    }
}
