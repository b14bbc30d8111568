//! Creates the tables that a host of an older version lacks.

ghost use Rattle.std.specs.Prelude.{◌≡◌, true, IfErr, OnOk};
ghost use Rattle.bh_rows.specs.Means.{is_trouble};
ghost use Rattle.bh_tables.specs.Schema.{first_schema, second_schema, third_schema, fourth_schema, host_schema};
ghost use Rattle.bh_tables.specs.Typed.{raw, first_raw, second_raw, third_raw, fourth_raw};
ghost use Rattle.bh_base.specs.Databases.{IsIntact, IsClean, stands, StaysWithin, StaysOpen};
ghost use Rattle.bh_migration.specs.Making.{before, IsTextOf, HasMade};
ghost use Rattle.bh_migration.specs.Migration.{earlier_schema, earlier_raw, HasSchema, HasRows};

use crate::Earlier;
use sqlite::{Alter, Connection, Error};

/// A table that version 2 added (`Locks`, `Retains`), version 3 (`Tallies`), version 4 or version 5
/// (`Unneeded`), in the order in which they are created.
#[derive(Clone, Copy)]
enum Added {
    Locks,
    Retains,
    Tallies,
    Packs,
    Placed,
    Notes,
    UploadNotes,
    Rights,
    Garbage,
    Unneeded,
}

impl Added {
    /// Its SQL. It never changes: existing files have it.
    fn text(self) -> &'static str
        ensures { IsTextOf self result.now }
    {
        match self {
            Added::Locks =>
                "CREATE TABLE locks (tenant TEXT NOT NULL, bucket TEXT NOT NULL, PRIMARY KEY (tenant, bucket), FOREIGN KEY (tenant, bucket) REFERENCES buckets ON DELETE RESTRICT) STRICT",
            Added::Retains =>
                "CREATE TABLE retains (tenant TEXT NOT NULL, seq INTEGER NOT NULL CHECK (seq >= 0), until INTEGER NOT NULL CHECK (until >= 0), PRIMARY KEY (tenant, seq), FOREIGN KEY (tenant, seq) REFERENCES versions ON DELETE RESTRICT) STRICT",
            Added::Tallies =>
                "CREATE TABLE tallies (tenant TEXT NOT NULL PRIMARY KEY REFERENCES tenants ON DELETE RESTRICT, versions INTEGER NOT NULL CHECK (versions >= 0) CHECK (versions <= 4611686018427387904), markers INTEGER NOT NULL CHECK (markers >= 0) CHECK (markers <= 4611686018427387904), objects INTEGER NOT NULL CHECK (objects >= 0) CHECK (objects <= 4611686018427387904)) STRICT",
            Added::Packs =>
                "CREATE TABLE packs (pack INT NOT NULL PRIMARY KEY CHECK (pack >= 0), length INTEGER NOT NULL CHECK (length >= 0) CHECK (length <= 4611686018427387904), live INTEGER NOT NULL CHECK (live >= 0) CHECK (live <= 4611686018427387904)) STRICT",
            Added::Placed =>
                "CREATE TABLE placed (digest BLOB NOT NULL, ord INTEGER NOT NULL CHECK (ord >= 0), pack INTEGER NOT NULL CHECK (pack >= 0), place INTEGER NOT NULL CHECK (place >= 0) CHECK (place <= 4611686018427387904), size INTEGER NOT NULL CHECK (size >= 0) CHECK (size <= 4611686018427387904), sum INTEGER NOT NULL, PRIMARY KEY (digest, ord), UNIQUE (pack, place), FOREIGN KEY (digest, ord) REFERENCES blocks ON DELETE RESTRICT, FOREIGN KEY (pack) REFERENCES packs ON DELETE RESTRICT) STRICT",
            Added::Notes =>
                "CREATE TABLE notes (tenant TEXT NOT NULL, seq INTEGER NOT NULL CHECK (seq >= 0), note BLOB NOT NULL, PRIMARY KEY (tenant, seq), FOREIGN KEY (tenant, seq) REFERENCES versions ON DELETE RESTRICT) STRICT",
            Added::UploadNotes =>
                "CREATE TABLE upload_notes (tenant TEXT NOT NULL, upload INTEGER NOT NULL CHECK (upload >= 0), note BLOB NOT NULL, PRIMARY KEY (tenant, upload), FOREIGN KEY (tenant, upload) REFERENCES uploads ON DELETE RESTRICT) STRICT",
            Added::Rights =>
                "CREATE TABLE rights (tenant TEXT NOT NULL, name TEXT NOT NULL, rights TEXT NOT NULL, PRIMARY KEY (tenant, name), FOREIGN KEY (tenant, name) REFERENCES keys ON DELETE RESTRICT) STRICT",
            Added::Garbage =>
                "CREATE TABLE garbage (id INTEGER PRIMARY KEY CHECK (id = 1), bytes INTEGER NOT NULL CHECK (bytes >= 0) CHECK (bytes <= 4611686018427387904)) STRICT",
            Added::Unneeded =>
                "CREATE TABLE unneeded (id INTEGER PRIMARY KEY CHECK (id = 1), bytes INTEGER NOT NULL CHECK (bytes >= 0) CHECK (bytes <= 4611686018427387904)) STRICT",
        }
    }
}

/// Creates one, without rows.
fn make_table<S: Alter>(connection: &mut Connection<S>, item: Added) -> Result<usize, Error>
    requires { IsClean S.Store connection.old → HasSchema (before item) (stands S.Store connection.old) }
    ensures within { StaysWithin S.Store connection.old connection.new }
    ensures opens { OnOk result (StaysOpen S.Store connection.old connection.new) }
    ensures made { OnOk result (IsClean S.Store connection.new
        → HasMade item (stands S.Store connection.old) (stands S.Store connection.new)) }
    ensures trouble { IfErr result (λ e. IsIntact S.Store connection.new → is_trouble e ≡ true) }
{
    connection.execute(item.text(), &[])
}

/// Creates the tables that version 4 added.
fn make_fourth<S: Alter>(connection: &mut Connection<S>) -> Result<(), Error>
    requires { IsClean S.Store connection.old → HasSchema third_schema (stands S.Store connection.old) }
    ensures within { StaysWithin S.Store connection.old connection.new }
    ensures opens { OnOk result (StaysOpen S.Store connection.old connection.new) }
    ensures made { OnOk result (IsClean S.Store connection.new
        → HasRows fourth_schema fourth_raw (third_raw (stands S.Store connection.old).now.trees) (stands S.Store connection.new)) }
    ensures trouble { IfErr result (λ e. IsIntact S.Store connection.new → is_trouble e ≡ true) }
{
    make_table(connection, Added::Packs)?;
    make_table(connection, Added::Placed)?;
    make_table(connection, Added::Notes)?;
    make_table(connection, Added::UploadNotes)?;
    make_table(connection, Added::Rights)?;
    make_table(connection, Added::Garbage)?;
    Ok(())
}

/// Creates the table that a host of version 4 lacks.
fn complete_fourth<S: Alter>(connection: &mut Connection<S>) -> Result<(), Error>
    requires { IsClean S.Store connection.old → HasSchema fourth_schema (stands S.Store connection.old) }
    ensures within { StaysWithin S.Store connection.old connection.new }
    ensures opens { OnOk result (StaysOpen S.Store connection.old connection.new) }
    ensures made { OnOk result (IsClean S.Store connection.new
        → HasRows host_schema raw (fourth_raw (stands S.Store connection.old).now.trees) (stands S.Store connection.new)) }
    ensures trouble { IfErr result (λ e. IsIntact S.Store connection.new → is_trouble e ≡ true) }
{
    make_table(connection, Added::Unneeded)?;
    Ok(())
}

/// Creates the tables that a host of version 3 lacks.
fn complete_third<S: Alter>(connection: &mut Connection<S>) -> Result<(), Error>
    requires { IsClean S.Store connection.old → HasSchema third_schema (stands S.Store connection.old) }
    ensures within { StaysWithin S.Store connection.old connection.new }
    ensures opens { OnOk result (StaysOpen S.Store connection.old connection.new) }
    ensures made { OnOk result (IsClean S.Store connection.new
        → HasRows host_schema raw (third_raw (stands S.Store connection.old).now.trees) (stands S.Store connection.new)) }
    ensures trouble { IfErr result (λ e. IsIntact S.Store connection.new → is_trouble e ≡ true) }
{
    make_fourth(connection)?;
    complete_fourth(connection)
}

/// Creates the tables that a host of version 2 lacks.
fn complete_second<S: Alter>(connection: &mut Connection<S>) -> Result<(), Error>
    requires { IsClean S.Store connection.old → HasSchema second_schema (stands S.Store connection.old) }
    ensures within { StaysWithin S.Store connection.old connection.new }
    ensures opens { OnOk result (StaysOpen S.Store connection.old connection.new) }
    ensures made { OnOk result (IsClean S.Store connection.new
        → HasRows host_schema raw (second_raw (stands S.Store connection.old).now.trees) (stands S.Store connection.new)) }
    ensures trouble { IfErr result (λ e. IsIntact S.Store connection.new → is_trouble e ≡ true) }
{
    make_table(connection, Added::Tallies)?;
    complete_third(connection)
}

/// Creates the tables that a host of version 1 lacks.
fn complete_first<S: Alter>(connection: &mut Connection<S>) -> Result<(), Error>
    requires { IsClean S.Store connection.old → HasSchema first_schema (stands S.Store connection.old) }
    ensures within { StaysWithin S.Store connection.old connection.new }
    ensures opens { OnOk result (StaysOpen S.Store connection.old connection.new) }
    ensures made { OnOk result (IsClean S.Store connection.new
        → HasRows host_schema raw (first_raw (stands S.Store connection.old).now.trees) (stands S.Store connection.new)) }
    ensures trouble { IfErr result (λ e. IsIntact S.Store connection.new → is_trouble e ≡ true) }
{
    make_table(connection, Added::Locks)?;
    make_table(connection, Added::Retains)?;
    complete_second(connection)
}

/// Creates all tables that a host of this version lacks, without rows.
pub fn make_tables<S: Alter>(connection: &mut Connection<S>, version: Earlier) -> Result<(), Error>
    requires { IsClean S.Store connection.old → HasSchema (earlier_schema version) (stands S.Store connection.old) }
    ensures within { StaysWithin S.Store connection.old connection.new }
    ensures opens { OnOk result (StaysOpen S.Store connection.old connection.new) }
    ensures made { OnOk result (IsClean S.Store connection.new → HasRows host_schema raw
        (earlier_raw version (stands S.Store connection.old).now.trees) (stands S.Store connection.new)) }
    ensures trouble { IfErr result (λ e. IsIntact S.Store connection.new → is_trouble e ≡ true) }
{
    match version {
        Earlier::First => complete_first(connection),
        Earlier::Second => complete_second(connection),
        Earlier::Third => complete_third(connection),
        Earlier::Fourth => complete_fourth(connection),
    }
}
