//! Tasks on files of given paths.

ghost use Rattle.std.specs.Prelude.{◌≡◌, Some, IfOk};
ghost use Rattle.std.specs.String.{string_bytes};
ghost use Rattle.sqlite_wal.specs.Files.{image_at};
ghost use Rattle.bh_maintenance.specs.Files.{HoldsSoundHost};
ghost use Rattle.bh_command_line.specs.Carrying.{IsMadeIn, IsWorkedIn, IsCheckedIn, IsBackedUpTo, IsImportedFrom, IsExportedTo};

use crate::works::work_of;
use bh_commands::{init_file, reading_of, work_in_file};
use bh_file::HostFile;
use bh_maintenance::fault::Fault;
use bh_maintenance::printed::Printed;
use bh_maintenance::{ClockRead, backup_file, check_file, export_file, import_file};
use bh_shelf::closed::ClosedPacks;
use bh_task::{FileAt, HostTask};
use bh_types::block_digest::BlockDigest;
use bh_types::limits::{Limits, Tuning};
use bh_words::{ClockGiven, Leap};
use sqlite::Start;
use sqlite_disk::Disk;

/// The digest function with the given name.
pub(crate) fn known(digest: Option<BlockDigest>) -> Result<BlockDigest, Fault>
    ensures { IfOk result (λ named. digest ≡ Some named) }
{
    match digest {
        Some(digest) => Ok(digest),
        None => Err(Fault::UnknownDigest),
    }
}

/// Creates a host in a file. A crash may leave anything in the bytes being written.
pub(crate) fn make_in<S: Start>(
    rt: &HostRuntime,
    file: FileAt<S>,
    limits: Limits,
    digest: Option<BlockDigest>,
) -> Result<Printed, Fault>
    ensures { IfOk result (IsMadeIn ⟦<HostFile<S> as Disk>⟧ (image_at S.Start) limits digest) }
{
    let FileAt { path, start } = file;
    let digest = known(digest)?;
    Ok(init_file(rt, path.as_str(), start, limits, digest)?.into_printed())
}

/// Copies the host of a file and its packs to a new file and new packs beside it.
pub(crate) fn back_up_in<S: Start, K: ClosedPacks + Drop, T: Start>(
    rt: &HostRuntime,
    of: FileAt<S>,
    closed: K,
    to: FileAt<T>,
) -> Result<Printed, Fault>
    ensures { IfOk result (IsBackedUpTo ⟦<HostFile<S> as Disk>⟧ K.Open.Shelf (K.has closed) (image_at S.Start)
        ⟦<HostFile<T> as Disk>⟧ K.Open.Copy.Shelf) }
{
    let FileAt { path, start } = of;
    let FileAt {
        path: to_path,
        start: to_start,
    } = to;
    let copied = backup_file(rt, path.as_str(), start, closed, to_path.as_str(), to_start)?;
    Ok(copied.into_printed())
}

/// Copies a tenant of a file's host to a new file.
pub(crate) fn export_in<S: Start, K: ClosedPacks + Drop, T: Start, U: Start>(
    rt: &HostRuntime,
    of: FileAt<S>,
    closed: K,
    tenant: String,
    to: FileAt<T>,
    made: U,
) -> Result<Printed, Fault>
    requires { HoldsSoundHost (K.has closed) (image_at S.Start) }
    ensures { IfOk result (IsExportedTo ⟦<HostFile<S> as Disk>⟧ K.Open.Shelf (K.has closed) (image_at S.Start)
        ⟦<HostFile<T> as Disk>⟧ ⟦<HostFile<U> as Disk>⟧ (string_bytes tenant)) }
{
    let FileAt { path, start } = of;
    let FileAt {
        path: to_path,
        start: to_start,
    } = to;
    let exported = export_file(
        rt,
        path.as_str(),
        start,
        closed,
        tenant.as_str(),
        to_path.as_str(),
        made,
        to_start,
    )?;
    Ok(exported.into_printed())
}

/// Adds the tenant of an exported file to another file's host, by the machine's clock.
pub(crate) fn import_in<S: Start, K: ClosedPacks + Drop, T: Start, L: ClosedPacks + Drop>(
    rt: &HostRuntime,
    to: FileAt<S>,
    closed: K,
    from: FileAt<T>,
    given: L,
    leap: Leap,
) -> Result<Printed, Fault>
    requires host { HoldsSoundHost (K.has closed) (image_at S.Start) }
    requires given { HoldsSoundHost (L.has given) (image_at T.Start) }
    ensures { IfOk result (IsImportedFrom ⟦<HostFile<S> as Disk>⟧ K.Open.Shelf (K.has closed) (image_at S.Start)
        ⟦<HostFile<T> as Disk>⟧ L.Open.Shelf (L.has given) (image_at T.Start) leap) }
{
    let FileAt { path, start } = to;
    let FileAt {
        path: from_path,
        start: from_start,
    } = from;
    let reading = reading_of(rt, None)?;
    let clock = ClockRead { reading, leap };
    let imported = import_file(
        rt,
        path.as_str(),
        start,
        closed,
        from_path.as_str(),
        from_start,
        given,
        clock,
    )?;
    Ok(imported.into_printed())
}

/// Checks a file's host and its packs.
pub(crate) fn check_in<S: Start, K: ClosedPacks + Drop>(
    rt: &HostRuntime,
    file: FileAt<S>,
    closed: K,
) -> Result<Printed, Fault>
    ensures { IfOk result (IsCheckedIn ⟦<HostFile<S> as Disk>⟧ K.Open.Shelf (K.has closed) (image_at S.Start)) }
{
    let FileAt { path, start } = file;
    Ok(check_file(rt, path.as_str(), start, closed)?.into_printed())
}

/// Does the work on a file's host, opened with these settings.
pub(crate) fn work_in<S: Start, K: ClosedPacks + Drop>(
    rt: &HostRuntime,
    file: FileAt<S>,
    closed: K,
    tuning: Tuning,
    clock: ClockGiven,
    asked: HostTask,
) -> Result<Printed, Fault>
    requires { HoldsSoundHost (K.has closed) (image_at S.Start) }
    ensures { IfOk result (IsWorkedIn ⟦<HostFile<S> as Disk>⟧ K.Open.Shelf (K.has closed) (image_at S.Start)
        (string_bytes file.path) tuning clock asked) }
{
    let FileAt { path, start } = file;
    let work = work_of(rt, path.as_str(), asked)?;
    Ok(work_in_file(rt, path.as_str(), start, closed, tuning, clock, work)?.into_printed())
}
