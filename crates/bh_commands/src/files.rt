//! Tasks on files.

ghost use Rattle.std.specs.Prelude.{IfOk};
ghost use Rattle.sqlite.specs.Files.{file_state};
ghost use Rattle.sqlite_wal.specs.Files.{image_at};
ghost use Rattle.bh_maintenance.specs.Files.{HoldsSoundHost};
ghost use Rattle.bh_commands.specs.Files.{HoldsFor, IsEnded, IsAnswered, IsNewIn};
ghost use Rattle.bh_commands.specs.Subcommands.{IsReadyFor};
ghost use Rattle.bh_commands.specs.declared.asked.FileTask.TheVariants as the_file;

use crate::asked::{FileTask, Work};
use crate::hosts::on_connection;
use bh_file::{HostFile, OpenFault};
use bh_maintenance::ending::{Ended, close};
use bh_maintenance::fault::Fault;
use bh_maintenance::files::{is_blank, open, without_files};
use bh_maintenance::printed::Printed;
use bh_shelf::closed::ClosedPacks;
use bh_shelf::no_shelf::NoShelf;
use bh_types::block_digest::BlockDigest;
use bh_types::limits::{Limits, Tuning};
use bh_words::ClockGiven;
use sqlite::{Connection, FileStore, Files, Start};
use sqlite_disk::Disk;
use std::alloc::AllocError;
use std::io::ErrorKind;
use std::{fmt, fs};

/// A new host's folder of packs has something in it.
#[derive(Drop)]
struct Strangers;

impl fmt::Display for Strangers {
    fn fmt<W: fmt::Write>(&self, f: &mut fmt::Formatter<W>) -> fmt::Result {
        f.write_str("this folder has another host's packs: move it to its host, or remove it")
    }
}

/// Does the task on the connection of files, and closes them.
fn on_files<D: Disk + Drop, K: ClosedPacks + Drop>(
    rt: &HostRuntime,
    path: &str,
    connection: Connection<FileStore<D>>,
    closed: K,
    asked: FileTask,
) -> Result<(Printed, Files<D>), Fault>
    requires { IsReadyFor (K.has closed) asked (file_state connection) }
    ensures { IfOk result (λ it. IsEnded K.Open.Shelf (K.has closed) connection asked it.0 it.1) }
{
    let (printed, left) = on_connection(rt, path, connection, closed, asked)?;
    Ok((printed, close(left)))
}

/// Opens or creates files, does the task, and closes them.
fn in_files<S: Start, K: ClosedPacks + Drop>(
    rt: &HostRuntime,
    path: &str,
    start: S,
    closed: K,
    asked: FileTask,
) -> Result<Ended<HostFile<S>>, Fault>
    requires { HoldsFor (K.has closed) asked (image_at S.Start) }
    ensures { IfOk result (λ ended.
        IsAnswered ⟦<HostFile<S> as Disk>⟧ K.Open.Shelf (image_at S.Start) (K.has closed) asked ended.printed ended.files) }
{
    let connection = open(rt, path, start)?;
    let (printed, files) = on_files(rt, path, connection, closed, asked)?;
    Ok(Ended {
        printed,
        files: Some(files),
    })
}

/// The folder of the packs beside a file, where links to that lead.
fn packs_of(rt: &HostRuntime, path: &str) -> Result<String, AllocError> {
    match fs::canonicalize(rt, path) {
        Ok(real) => format!(in rt.alloc(); "{}.packs", real.as_str()),
        Err(_) => format!(in rt.alloc(); "{path}.packs"),
    }
}

/// Fails if a folder isn't empty.
fn refuse_full(rt: &HostRuntime, path: &str, folder: &str) -> Result<(), Fault> {
    match fs::read_dir(rt, folder) {
        Ok(mut names) => match names.next() {
            Some(_) => Err(Fault::unpacked(rt.alloc(), path, &Strangers)),
            None => Ok(()),
        },
        Err(error) if error.kind() == ErrorKind::NotFound => Ok(()),
        Err(error) => Err(Fault::unpacked(rt.alloc(), path, &error)),
    }
}

/// Fails if packs are beside a file without a byte: those of a host whose file isn't there any more. A new
/// host lists none, so that they would be removed when it is opened.
fn refuse_packs(rt: &HostRuntime, path: &str) -> Result<(), Fault> {
    match fs::metadata(rt, path) {
        Ok(found) if found.len() > 0 => Ok(()),
        Ok(_) | Err(_) => {
            let folder = packs_of(rt, path)?;
            refuse_full(rt, path, folder.as_str())
        }
    }
}

/// Creates a host in a file that is missing or empty, and prints `host`. It has no packs, and no
/// folder for any is made. It fails if another host's packs are beside that file.
pub fn init_file<S: Start>(
    rt: &HostRuntime,
    path: &str,
    start: S,
    limits: Limits,
    digest: BlockDigest,
) -> Result<Ended<HostFile<S>>, Fault>
    ensures { IfOk result (λ ended. IsNewIn ⟦<HostFile<S> as Disk>⟧ (image_at S.Start) limits digest ended.printed ended.files) }
{
    refuse_packs(rt, path)?;
    let asked = FileTask::Init { limits, digest };
    let ended = in_files(rt, path, start, NoShelf, asked)?;
    Ok(ended)
}

/// Does the work on the host of a file and its packs, opened with these settings, and prints the reply, unless the clock is too
/// far ahead of the host's last stamp. If the file is missing or empty, none is created. It fails if the packs that the host
/// lists can't be opened.
pub fn work_in_file<S: Start, K: ClosedPacks + Drop>(
    rt: &HostRuntime,
    path: &str,
    start: S,
    closed: K,
    tuning: Tuning,
    clock: ClockGiven,
    work: Work,
) -> Result<Ended<HostFile<S>>, Fault>
    requires { HoldsSoundHost (K.has closed) (image_at S.Start) }
    ensures { IfOk result (λ ended. IsAnswered ⟦<HostFile<S> as Disk>⟧ K.Open.Shelf (image_at S.Start) (K.has closed)
        (the_file.Host tuning clock work) ended.printed ended.files) }
{
    let asked = FileTask::Host {
        tuning,
        clock,
        work,
    };
    match is_blank(rt, path) {
        Ok(false) => Ok(in_files(rt, path, start, closed, asked)?),
        Ok(true) => Ok(without_files(rt.alloc())?),
        Err(error) => Err(Fault::unopened(rt.alloc(), path, OpenFault::from(error))),
    }
}
