//! A command line's task, carried out.

ghost use Rattle.std.specs.Prelude.{IfOk, map};
ghost use Rattle.std.specs.String.{string_bytes};
ghost use Rattle.sqlite_wal.specs.Files.{image_at};
ghost use Rattle.bh_pack_shelf.specs.Opened.{in_files};
ghost use Rattle.bh_maintenance.specs.Files.{HoldsSoundHost};
ghost use Rattle.bh_command_line.specs.Carrying.{IsMaintained, IsCarriedOut, IsDoneAsTyped, IsDoneIn};

use crate::environment::pack_bounds;
use crate::failure::Failure;
use crate::files::{back_up_in, check_in, export_in, import_in, known, make_in, work_in};
use crate::input::answer_input;
use crate::telling::tell;
use bh_file::HostFile;
use bh_maintenance::fault::Fault;
use bh_maintenance::printed::Printed;
use bh_pack_files::{Held, PackFile, PackFolder, Unknown};
use bh_pack_shelf::{Made, PackFiles, PackShelf};
use bh_shelf::shelf::Shelf;
use bh_shelf::shelved::Shelved;
use bh_task::{Environment, FileAt, LineTask, Maintenance, Starts, task_of};
use bh_words::{Line, read_words};
use sqlite::{Start, Wary};
use sqlite_disk::Disk;

/// The packs of a host that was opened, in the folder beside its file.
pub type Packs<S> = PackShelf<PackFile<S>, PackFolder<S>>;

/// Those of a copy.
pub type CopiedPacks = Shelved<PackFile<Made>, PackFolder<Made>>;

/// The packs beside a host's file, which aren't opened yet, with the bounds of the environment. `H` stands
/// for what their files held.
fn packs_beside<S: Start, H: Held>(
    rt: &HostRuntime,
    file: &FileAt<S>,
    held: H,
) -> Result<PackFiles<H>, Fault> {
    let bounds = pack_bounds(rt)?;
    Ok(PackFiles::new(rt, file.path.as_str(), held, bounds)?)
}

/// The same to look at: what is beside the file stays as it is.
fn packs_to_look<S: Start, H: Held>(
    rt: &HostRuntime,
    file: &FileAt<S>,
    held: H,
) -> Result<PackFiles<H>, Fault> {
    let bounds = pack_bounds(rt)?;
    Ok(PackFiles::to_look(rt, file.path.as_str(), held, bounds)?)
}

/// Carries out work on files whose hosts aren't being served.
fn maintain<S: Start, T: Start, U: Start, H: Held, G: Held>(
    rt: &HostRuntime,
    asked: Maintenance<S, T, U>,
    packs: H,
    given: G,
) -> Result<Printed, Fault>
    requires host { HoldsSoundHost (in_files H.Held.held) (image_at S.Start) }
    requires other { HoldsSoundHost (in_files G.Held.held) (image_at T.Start) }
    ensures { IfOk result (IsMaintained ⟦<HostFile<S> as Disk>⟧ ⟦<HostFile<T> as Disk>⟧ ⟦<HostFile<U> as Disk>⟧
        ⟦<Packs<H> as Shelf>⟧ ⟦<Packs<G> as Shelf>⟧ ⟦<CopiedPacks as Shelf>⟧ (in_files H.Held.held) (in_files G.Held.held)
        (image_at S.Start) (image_at T.Start) asked) }
{
    match asked {
        Maintenance::Backup { of, to } => {
            let closed = packs_beside(rt, &of, packs)?;
            back_up_in(rt, of, closed, to)
        }
        Maintenance::Export {
            of,
            tenant,
            to,
            made,
        } => {
            let closed = packs_beside(rt, &of, packs)?;
            export_in(rt, of, closed, tenant, to, made)
        }
        Maintenance::Import { to, from, leap } => {
            let closed = packs_beside(rt, &to, packs)?;
            let given = packs_beside(rt, &from, given)?;
            import_in(rt, to, closed, from, given, leap)
        }
        Maintenance::Check { file } => {
            let closed = packs_to_look(rt, &file, packs)?;
            check_in(rt, file, closed)
        }
    }
}

/// Carries out a command line's task, whatever its files and those of the packs beside them contain, and
/// returns the printed text.
pub fn carry_task<S: Start, T: Start, U: Start, H: Held, G: Held>(
    rt: &HostRuntime,
    task: LineTask<S, T, U>,
    packs: H,
    given: G,
) -> Result<Printed, Fault>
    requires host { HoldsSoundHost (in_files H.Held.held) (image_at S.Start) }
    requires other { HoldsSoundHost (in_files G.Held.held) (image_at T.Start) }
    ensures { IfOk result (IsCarriedOut ⟦<HostFile<S> as Disk>⟧ ⟦<HostFile<T> as Disk>⟧ ⟦<HostFile<U> as Disk>⟧
        ⟦<Packs<H> as Shelf>⟧ ⟦<Packs<G> as Shelf>⟧ ⟦<CopiedPacks as Shelf>⟧ (in_files H.Held.held) (in_files G.Held.held)
        (image_at S.Start) (image_at T.Start) task) }
{
    match task {
        LineTask::Script {
            limits,
            tuning,
            digest,
        } => answer_input(rt, known(digest)?, limits, tuning),
        LineTask::Init {
            file,
            limits,
            digest,
        } => make_in(rt, file, limits, digest),
        LineTask::OnHost {
            file,
            tuning,
            clock,
            asked,
        } => {
            let closed = packs_beside(rt, &file, packs)?;
            work_in(rt, file, closed, tuning, clock, asked)
        }
        LineTask::Maintain(asked) => maintain(rt, asked, packs, given),
        LineTask::Tell {
            door,
            secret_file,
            told,
        } => tell(rt, &door, secret_file, told),
    }
}

/// Carries out a parsed command line in an environment, and returns the printed text.
///
/// A subcommand on a file reports the first of these problems. Options don't fit together. The file
/// can't be opened. It has no host (`47 NotAHostFile`), or for `init` isn't empty. The clock can't
/// be read, or is too far ahead. The event is refused.
fn carry_line(rt: &HostRuntime, environment: Environment, line: Line) -> Result<Printed, Failure>
    ensures { IfOk result (IsDoneIn ⟦<HostFile<Wary> as Disk>⟧ ⟦<HostFile<Wary> as Disk>⟧ ⟦<HostFile<Wary> as Disk>⟧
        ⟦<Packs<Unknown> as Shelf>⟧ ⟦<Packs<Unknown> as Shelf>⟧ ⟦<CopiedPacks as Shelf>⟧
        (in_files ⟦<Unknown as Held>⟧.held) (in_files ⟦<Unknown as Held>⟧.held)
        (image_at ⟦<Wary as Start>⟧) (image_at ⟦<Wary as Start>⟧) environment line) }
{
    let starts = Starts {
        host: Wary,
        other: Wary,
        made: Wary,
    };
    let task = task_of(line, environment, starts)?;
    let printed = carry_task(rt, task, Unknown, Unknown)?;
    Ok(printed)
}

/// Carries out a command line, the program's name first, in an environment, and returns the printed
/// text. Fails if its words tell no line, if the environment couldn't be read, if options don't fit
/// together, or as [`carry_task`] does.
pub fn carry_out(
    rt: &HostRuntime,
    environment: Result<Environment, Fault>,
    words: &[String],
) -> Result<Printed, Failure>
    ensures { IfOk result (IsDoneAsTyped ⟦<HostFile<Wary> as Disk>⟧ ⟦<HostFile<Wary> as Disk>⟧ ⟦<HostFile<Wary> as Disk>⟧
        ⟦<Packs<Unknown> as Shelf>⟧ ⟦<Packs<Unknown> as Shelf>⟧ ⟦<CopiedPacks as Shelf>⟧
        (in_files ⟦<Unknown as Held>⟧.held) (in_files ⟦<Unknown as Held>⟧.held)
        (image_at ⟦<Wary as Start>⟧) (image_at ⟦<Wary as Start>⟧) environment (map string_bytes words.now)) }
{
    let line = read_words(rt.alloc(), words)?;
    let environment = environment?;
    let printed = carry_line(rt, environment, line)?;
    Ok(printed)
}
