ghost use Rattle.std.specs.Prelude.{◌≡◌, true, None, IfOk, IfErr};
ghost use Rattle.sqlite.specs.declared.error.Error.TheVariants.{SqliteFailure};
ghost use Rattle.sqlite.specs.declared.error.ErrorCode.TheVariants.{DiskFull};
ghost use Rattle.sqlite_disk.specs.Refusal.{is_no_room as finds_no_room};
ghost use Rattle.std.specs.declared.io.Error.{Error as Fault};
ghost use Rattle.bh_packs.specs.declared.trouble.Trouble.TheVariants.{File};
ghost use Rattle.bh_rows.specs.Means.{is_trouble};

use bh_packs::place::Place;
use bh_packs::trouble::Trouble;
use sqlite::{Error, ErrorCode};
use sqlite_disk::is_no_room;
use std::io;

/// The code of a failed call on a pack's file: a full disk has its own.
fn code_of(error: &io::Error) -> ErrorCode
    ensures trouble { is_trouble (SqliteFailure result) ≡ true }
    ensures full { finds_no_room error.now ≡ true → result ≡ DiskFull }
{
    if is_no_room(error) {
        ErrorCode::DiskFull
    } else {
        ErrorCode::SystemIoFailure
    }
}

/// A pack's failure as one of the database, with its code.
pub fn error_of(trouble: Trouble) -> Error
    ensures trouble { is_trouble result ≡ true }
    ensures full { (e : Fault) → trouble ≡ File e → finds_no_room e ≡ true → result ≡ SqliteFailure DiskFull }
{
    match trouble {
        Trouble::Memory => Error::SqliteFailure(ErrorCode::OutOfMemory),
        Trouble::Full | Trouble::TooLong => Error::SqliteFailure(ErrorCode::TooBig),
        Trouble::File(error) => Error::SqliteFailure(code_of(&error)),
        _ => Error::SqliteFailure(ErrorCode::SystemIoFailure),
    }
}

/// No place, if packs have no room for some bytes; any other failure as one of the database.
pub fn without_room(trouble: Trouble) -> Result<Option<Place>, Error>
    ensures none { IfOk result (λ found. found ≡ None) }
    ensures trouble { IfErr result (λ e. is_trouble e ≡ true) }
{
    match trouble {
        Trouble::Full | Trouble::TooLong => Ok(None),
        other => Err(error_of(other)),
    }
}
