//! Databases in files.

ghost use Rattle.std.specs.Prelude.{◌≡◌, true, false, IsTrue, IfOk};
ghost use Rattle.sqlite.specs.Files.{file_state, Finds, IsOpened};
ghost use Rattle.sqlite.specs.State.{HasCleanDisk};
ghost use Rattle.sqlite_std_file.specs.File.{IsFresh};
ghost use Rattle.sqlite_wal.specs.Files.{image_at};
ghost use Rattle.bh_file.specs.Opened.{IsOpenedOn};
ghost use Rattle.bh_file.specs.Watched.{inner_of};

use crate::fault::OpenFault;
use crate::look::look;
use crate::meter::Meter;
use crate::progress::Work;
use crate::watched::{SharedMeter, Watched, end};
use sqlite::{Connection, FileFrom, FileStore, Options, Start};
use sqlite_disk::{Disk, Files};
use std::alloc::AllocError;
use std::cell::Cell;
use std::hash::{BuildHasher, RandomState};
use std::io;
use std::rc::Rc;

/// How many pages are cached: 16 MiB.
const CACHE_PAGES: usize = 4096;

/// After this many pages the log is copied into the database file: at 15.7 MB. A page is copied once,
/// however often it was written.
const CHECKPOINT_FRAMES: usize = 3_800;

/// How often an opening reads each page of a block: for its tree, its rows and its index. A large
/// file has few other pages. Measured on files of 27 to 265 MB.
const ROUNDS: u64 = 5;

/// A file whose first contents are those of `S`, and whose reads are counted.
pub type HostFile<S> = Watched<FileFrom<S>>;

/// The connection to files whose first contents are those of `S`.
pub type FileConnection<S> = Connection<FileStore<HostFile<S>>>;

/// A meter of an opening of files that have so many bytes.
fn meter_of(rt: &HostRuntime, bytes: u64) -> Result<SharedMeter, AllocError> {
    let meter = Meter::new(rt, Work::Open, bytes).repeated(ROUNDS);
    match Rc::new(rt.alloc(), Cell::new(meter)) {
        Ok(meter) => Ok(meter),
        Err(_) => Err(AllocError),
    }
}

/// The files, whose reads the meter counts.
fn watched<D: Disk + Drop>(
    files: Files<D>,
    meter: &SharedMeter,
) -> Result<Files<Watched<D>>, AllocError>
    ensures { IfOk result (λ it. (inner_of it.log ≡ files.log) × (inner_of it.db ≡ files.db)) }
{
    let Files { log, db } = files;
    Ok(Files {
        log: Watched::new(log, meter.clone()?),
        db: Watched::new(db, meter.clone()?),
    })
}

/// The two files of a database, or new ones. They are locked, and not read yet.
fn files_at<S: Start>(
    rt: &HostRuntime,
    path: &str,
    start: S,
    meter: &SharedMeter,
) -> Result<Files<HostFile<S>>, OpenFault>
    ensures usable { IfOk result (λ files. IsTrue (⟦<HostFile<S> as Disk>⟧.is_usable files.log)
        × IsTrue (⟦<HostFile<S> as Disk>⟧.is_usable files.db)) }
    ensures fresh { IfOk result (λ files. IsFresh true (inner_of files.log) × IsFresh false (inner_of files.db)) }
{
    match sqlite_std_file::open(rt, path, start) {
        Ok(files) => Ok(watched(files, meter)?),
        Err(error) => Err(OpenFault::from(error)),
    }
}

/// The two files of a database, or new ones, as for `open_file`. They are locked, and not read yet.
pub fn open_files<S: Start>(
    rt: &HostRuntime,
    path: &str,
    start: S,
) -> Result<Files<HostFile<S>>, OpenFault>
    ensures usable { IfOk result (λ files. IsTrue (⟦<HostFile<S> as Disk>⟧.is_usable files.log)
        × IsTrue (⟦<HostFile<S> as Disk>⟧.is_usable files.db)) }
    ensures fresh { IfOk result (λ files. IsFresh true (inner_of files.log) × IsFresh false (inner_of files.db)) }
{
    let meter = meter_of(rt, look(rt, path)?)?;
    end(&meter);
    files_at(rt, path, start, &meter)
}

fn options(rt: &HostRuntime) -> io::Result<Options> {
    let seed = RandomState::new(rt)?.hash_one(&0u8);
    let mut options = Options::new(seed);
    options.cache_pages = CACHE_PAGES;
    options.checkpoint_frames = CHECKPOINT_FRAMES;
    Ok(options)
}

/// Opens a database's file, or creates it. A new one has a checksum for each page, which detects
/// damage.
///
/// A new file, and its log, have mode 0600. An existing file keeps its mode, and a new log gets the
/// same. If a file isn't regular, or has no log and doesn't begin as a database, its first 100
/// bytes decide that. Then nothing is created beside it. While a large file is read, standard error
/// shows how far that is.
pub fn open_file<S: Start>(
    rt: &HostRuntime,
    path: &str,
    start: S,
) -> Result<FileConnection<S>, OpenFault>
    ensures { IfOk result (λ connection. IsOpenedOn (image_at S.Start) (file_state connection)) }
{
    let meter = meter_of(rt, look(rt, path)?)?;
    let files = files_at(rt, path, start, &meter)?;
    let connection = open_counted(rt, files, &meter)?;
    Ok(connection)
}

/// Opens the database in two files, which stay locked.
pub fn open_database<D: Disk + Drop>(
    rt: &HostRuntime,
    files: Files<D>,
) -> Result<Connection<FileStore<D>>, OpenFault>
    requires log { IsTrue (D.Disk.is_usable files.log) }
    requires db { IsTrue (D.Disk.is_usable files.db) }
    ensures opened { IfOk result (λ connection. HasCleanDisk (file_state connection) → IsOpened connection) }
    ensures found { IfOk result (λ connection. HasCleanDisk (file_state connection) → Finds files connection) }
{
    let options = options(rt)?;
    match Connection::open_files_with(rt.alloc(), files, options, true) {
        Ok(mut connection) => {
            connection.set_clock(rt);
            Ok(connection)
        }
        Err((error, _)) => Err(OpenFault::Database(error)),
    }
}

/// Opens the database in two files, whose reads the meter counts, and ends the count.
fn open_counted<D: Disk + Drop>(
    rt: &HostRuntime,
    files: Files<D>,
    meter: &SharedMeter,
) -> Result<Connection<FileStore<D>>, OpenFault>
    requires log { IsTrue (D.Disk.is_usable files.log) }
    requires db { IsTrue (D.Disk.is_usable files.db) }
    ensures opened { IfOk result (λ connection. HasCleanDisk (file_state connection) → IsOpened connection) }
    ensures found { IfOk result (λ connection. HasCleanDisk (file_state connection) → Finds files connection) }
{
    let opened = open_database(rt, files);
    end(meter);
    opened
}
