//! The state after a subcommand was done.

ghost use Rattle.std.specs.Prelude.{◌≡◌};
ghost use Rattle.bh_maintenance.specs.Endings.{IsLeft, AreClosed, Closes};

use crate::printed::Printed;
use sqlite::{Alter, Connection, FileStore, Files};
use sqlite_disk::Disk;

/// The result of a subcommand on a file's connection.
#[derive(Drop)]
pub struct Done<S: Alter + Drop> {
    pub printed: Printed,
    pub connection: Connection<S>,
}

/// The rest of a connection.
#[derive(Drop)]
pub enum Left<S: Alter + Drop> {
    /// The whole connection.
    Whole(Connection<S>),
    /// The store beneath it, with the committed database.
    Bare(S),
}

/// A subcommand's printed text, and its files, if there were any.
#[derive(Drop)]
pub struct Ended<D: Disk + Drop> {
    pub printed: Printed,
    pub files: Option<Files<D>>,
}

impl<D: Disk + Drop> Ended<D> {
    /// The printed text. The files are closed, so that another process may open them.
    pub fn into_printed(self) -> Printed
        ensures { result ≡ self.printed }
    {
        let Ended { printed, files: _ } = self;
        printed
    }
}

/// The rest of a connection. If the subcommand was refused, its files are unchanged.
fn left_of<S: Alter + Drop>(connection: Connection<S>, status: u8) -> Left<S>
    ensures { IsLeft S.Store connection result }
{
    if status == 0 {
        return Left::Whole(connection);
    }
    Left::Bare(connection.into_store())
}

/// The printed text, and the rest of the connection.
pub fn leave<S: Alter + Drop>(done: Done<S>) -> (Printed, Left<S>)
    ensures printed { result.0 ≡ done.printed }
    ensures left { IsLeft S.Store done.connection result.1 }
{
    let Done {
        printed,
        connection,
    } = done;
    let left = left_of(connection, printed.status);
    (printed, left)
}

/// Closes files. If their connection is healthy, the log is copied into the database file first. A
/// failure of that loses nothing, since the next open reads the log.
pub fn close<D: Disk + Drop>(left: Left<FileStore<D>>) -> Files<D>
    ensures { Closes left result }
{
    match left {
        Left::Whole(connection) => match connection.close_files() {
            Ok(files) => files,
            Err((_, store)) => store.close(),
        },
        Left::Bare(store) => store.close(),
    }
}

/// Closes the files of a connection, which don't change.
pub fn let_go<D: Disk + Drop>(connection: Connection<FileStore<D>>) -> Files<D>
    ensures { AreClosed connection result }
{
    connection.into_store().close()
}
