ghost use Rattle.std.specs.Prelude.{◌≡◌, true, IfErr};
ghost use Rattle.bh_base.specs.Connections.{state};
ghost use Rattle.bh_rows.specs.Means.{is_trouble};
ghost use Rattle.bh_tables.specs.Schema.{no_schema, third_schema};
ghost use Rattle.bh_tables.specs.Made.{with_uses_by_count, with_retains, with_tallies, with_placed, with_garbage, with_unneeded};
ghost use Rattle.bh_base.specs.Layer.{IsIntact, IsStateClean};
ghost use Rattle.bh_create.specs.Creation.{IsMaking, Makes};
ghost use Rattle.bh_create.specs.Items.{before, after, IsTextOf, Lead};

use bh_base::connection::Connection;
use bh_shelf::shelf::Shelf;
use sqlite::{Alter, Error};

/// A table or an index of a host's database, in this order.
#[derive(Clone, Copy)]
enum Item {
    Host,
    Tenants,
    Keys,
    Buckets,
    Versions,
    Blocks,
    Refs,
    Newest,
    RefsByBlock,
    Uploads,
    Parts,
    UploadsByKey,
    UploadsByMoment,
    Uses,
    UsesByCount,
    Locks,
    Retains,
    Tallies,
    Packs,
    Placed,
    Notes,
    UploadNotes,
    Rights,
    Garbage,
    Unneeded,
}

/// The tables and indexes of a host of version 1.
const FIRST: [Item; 15] = [
    Item::Host,
    Item::Tenants,
    Item::Keys,
    Item::Buckets,
    Item::Versions,
    Item::Blocks,
    Item::Refs,
    Item::Newest,
    Item::RefsByBlock,
    Item::Uploads,
    Item::Parts,
    Item::UploadsByKey,
    Item::UploadsByMoment,
    Item::Uses,
    Item::UsesByCount,
];

/// The SQL of the tables that versions 2 and 3 added.
const LOCKS: &str =
    "CREATE TABLE locks (tenant TEXT NOT NULL, bucket TEXT NOT NULL, PRIMARY KEY (tenant, bucket), FOREIGN KEY (tenant, bucket) REFERENCES buckets ON DELETE RESTRICT) STRICT";

const RETAINS: &str =
    "CREATE TABLE retains (tenant TEXT NOT NULL, seq INTEGER NOT NULL CHECK (seq >= 0), until INTEGER NOT NULL CHECK (until >= 0), PRIMARY KEY (tenant, seq), FOREIGN KEY (tenant, seq) REFERENCES versions ON DELETE RESTRICT) STRICT";

const TALLIES: &str =
    "CREATE TABLE tallies (tenant TEXT NOT NULL PRIMARY KEY REFERENCES tenants ON DELETE RESTRICT, versions INTEGER NOT NULL CHECK (versions >= 0) CHECK (versions <= 4611686018427387904), markers INTEGER NOT NULL CHECK (markers >= 0) CHECK (markers <= 4611686018427387904), objects INTEGER NOT NULL CHECK (objects >= 0) CHECK (objects <= 4611686018427387904)) STRICT";

/// Of those that version 4 added.
const PACKS: &str =
    "CREATE TABLE packs (pack INT NOT NULL PRIMARY KEY CHECK (pack >= 0), length INTEGER NOT NULL CHECK (length >= 0) CHECK (length <= 4611686018427387904), live INTEGER NOT NULL CHECK (live >= 0) CHECK (live <= 4611686018427387904)) STRICT";

const PLACED: &str =
    "CREATE TABLE placed (digest BLOB NOT NULL, ord INTEGER NOT NULL CHECK (ord >= 0), pack INTEGER NOT NULL CHECK (pack >= 0), place INTEGER NOT NULL CHECK (place >= 0) CHECK (place <= 4611686018427387904), size INTEGER NOT NULL CHECK (size >= 0) CHECK (size <= 4611686018427387904), sum INTEGER NOT NULL, PRIMARY KEY (digest, ord), UNIQUE (pack, place), FOREIGN KEY (digest, ord) REFERENCES blocks ON DELETE RESTRICT, FOREIGN KEY (pack) REFERENCES packs ON DELETE RESTRICT) STRICT";

const NOTES: &str =
    "CREATE TABLE notes (tenant TEXT NOT NULL, seq INTEGER NOT NULL CHECK (seq >= 0), note BLOB NOT NULL, PRIMARY KEY (tenant, seq), FOREIGN KEY (tenant, seq) REFERENCES versions ON DELETE RESTRICT) STRICT";

const UPLOAD_NOTES: &str =
    "CREATE TABLE upload_notes (tenant TEXT NOT NULL, upload INTEGER NOT NULL CHECK (upload >= 0), note BLOB NOT NULL, PRIMARY KEY (tenant, upload), FOREIGN KEY (tenant, upload) REFERENCES uploads ON DELETE RESTRICT) STRICT";

const RIGHTS: &str =
    "CREATE TABLE rights (tenant TEXT NOT NULL, name TEXT NOT NULL, rights TEXT NOT NULL, PRIMARY KEY (tenant, name), FOREIGN KEY (tenant, name) REFERENCES keys ON DELETE RESTRICT) STRICT";

const GARBAGE: &str =
    "CREATE TABLE garbage (id INTEGER PRIMARY KEY CHECK (id = 1), bytes INTEGER NOT NULL CHECK (bytes >= 0) CHECK (bytes <= 4611686018427387904)) STRICT";

/// And of the one that version 5 added.
const UNNEEDED: &str =
    "CREATE TABLE unneeded (id INTEGER PRIMARY KEY CHECK (id = 1), bytes INTEGER NOT NULL CHECK (bytes >= 0) CHECK (bytes <= 4611686018427387904)) STRICT";

impl Item {
    /// Its SQL.
    fn text(self) -> &'static str
        ensures { IsTextOf self result.now }
    {
        match self {
            Item::Host =>
                "CREATE TABLE host (id INTEGER PRIMARY KEY CHECK (id = 1), version INTEGER NOT NULL CHECK (version >= 0), latest INTEGER NOT NULL CHECK (latest >= 0), min_part INTEGER NOT NULL CHECK (min_part >= 0), max_body INTEGER NOT NULL CHECK (max_body >= 0), digest INTEGER NOT NULL CHECK (digest >= 0)) STRICT",
            Item::Tenants =>
                "CREATE TABLE tenants (tenant TEXT NOT NULL PRIMARY KEY, quota INTEGER NOT NULL CHECK (quota >= 0), next_version INTEGER NOT NULL CHECK (next_version >= 0), next_upload INTEGER NOT NULL CHECK (next_upload >= 0), next_entry INTEGER NOT NULL CHECK (next_entry >= 0), used INTEGER NOT NULL CHECK (used >= 0) CHECK (used <= 4611686018427387904)) STRICT",
            Item::Keys =>
                "CREATE TABLE keys (tenant TEXT NOT NULL REFERENCES tenants ON DELETE RESTRICT, name TEXT NOT NULL, secret TEXT NOT NULL, PRIMARY KEY (tenant, name)) STRICT",
            Item::Buckets =>
                "CREATE TABLE buckets (tenant TEXT NOT NULL REFERENCES tenants ON DELETE RESTRICT, bucket TEXT NOT NULL, created INTEGER NOT NULL CHECK (created >= 0), state INTEGER NOT NULL CHECK (state >= 0) CHECK (state <= 2), days INTEGER CHECK (days >= 0), PRIMARY KEY (tenant, bucket)) STRICT",
            Item::Versions =>
                "CREATE TABLE versions (tenant TEXT NOT NULL, seq INTEGER NOT NULL CHECK (seq >= 0), bucket TEXT NOT NULL, okey BLOB NOT NULL, id INTEGER NOT NULL CHECK (id >= 0), marker INTEGER NOT NULL CHECK (marker >= 0), stamp INTEGER NOT NULL CHECK (stamp >= 0), size INTEGER NOT NULL CHECK (size >= 0), sum TEXT NOT NULL, PRIMARY KEY (tenant, seq), UNIQUE (tenant, bucket, okey, id), FOREIGN KEY (tenant, bucket) REFERENCES buckets ON DELETE RESTRICT, CHECK (marker = 0 OR (size = 0 AND sum = ''))) STRICT",
            Item::Blocks =>
                "CREATE TABLE blocks (digest BLOB NOT NULL, ord INTEGER NOT NULL CHECK (ord >= 0), bytes BLOB NOT NULL, PRIMARY KEY (digest, ord)) STRICT",
            Item::Refs =>
                "CREATE TABLE refs (tenant TEXT NOT NULL, body INTEGER NOT NULL CHECK (body >= 0), place INTEGER NOT NULL CHECK (place >= 0), digest BLOB NOT NULL, ord INTEGER NOT NULL CHECK (ord >= 0), size INTEGER NOT NULL CHECK (size >= 0), PRIMARY KEY (tenant, body, place), FOREIGN KEY (digest, ord) REFERENCES blocks ON DELETE RESTRICT) STRICT",
            Item::Newest => "CREATE INDEX newest ON versions (tenant, bucket, okey, seq DESC)",
            Item::RefsByBlock => "CREATE INDEX refs_by_block ON refs (digest, ord)",
            Item::Uploads =>
                "CREATE TABLE uploads (tenant TEXT NOT NULL, upload INTEGER NOT NULL CHECK (upload >= 0), bucket TEXT NOT NULL, okey BLOB NOT NULL, begun INTEGER NOT NULL CHECK (begun >= 0), bytes_kept INTEGER NOT NULL CHECK (bytes_kept >= 0) CHECK (bytes_kept <= 4611686018427387904), PRIMARY KEY (tenant, upload), FOREIGN KEY (tenant, bucket) REFERENCES buckets ON DELETE RESTRICT) STRICT",
            Item::Parts =>
                "CREATE TABLE parts (tenant TEXT NOT NULL, upload INTEGER NOT NULL CHECK (upload >= 0), number INTEGER NOT NULL CHECK (number >= 0), size INTEGER NOT NULL CHECK (size >= 0), sum TEXT NOT NULL, stamp INTEGER NOT NULL CHECK (stamp >= 0), body INTEGER NOT NULL CHECK (body >= 0), PRIMARY KEY (tenant, upload, number), UNIQUE (tenant, body), FOREIGN KEY (tenant, upload) REFERENCES uploads ON DELETE RESTRICT) STRICT",
            Item::UploadsByKey =>
                "CREATE INDEX uploads_by_key ON uploads (tenant, bucket, okey, upload)",
            Item::UploadsByMoment =>
                "CREATE INDEX uploads_by_moment ON uploads (tenant, bucket, begun, upload)",
            Item::Uses =>
                "CREATE TABLE uses (digest BLOB NOT NULL, ord INTEGER NOT NULL CHECK (ord >= 0), uses INTEGER NOT NULL CHECK (uses >= 0) CHECK (uses <= 4611686018427387904), PRIMARY KEY (digest, ord)) STRICT",
            Item::UsesByCount => "CREATE INDEX uses_by_count ON uses (uses, digest, ord)",
            Item::Locks => LOCKS,
            Item::Retains => RETAINS,
            Item::Tallies => TALLIES,
            Item::Packs => PACKS,
            Item::Placed => PLACED,
            Item::Notes => NOTES,
            Item::UploadNotes => UPLOAD_NOTES,
            Item::Rights => RIGHTS,
            Item::Garbage => GARBAGE,
            Item::Unneeded => UNNEEDED,
        }
    }
}

/// Creates one, without rows, after those before it.
fn create_item<S: Alter, P: Shelf>(
    connection: &mut Connection<S, P>,
    item: Item,
) -> Result<usize, Error>
    requires { IsStateClean (state S.Store P.Shelf connection.old) → IsMaking (before item) (state S.Store P.Shelf connection.old) }
    ensures makes { Makes (after item) (state S.Store P.Shelf connection.old) (state S.Store P.Shelf connection.new) result }
    ensures trouble { IfErr result (λ e. IsIntact (state S.Store P.Shelf connection.new) → is_trouble e ≡ true) }
{
    connection.database.execute(item.text(), &[])
}

/// Creates these, one after another, which are all that a host of version 1 has.
fn create_all<S: Alter, P: Shelf>(
    connection: &mut Connection<S, P>,
    items: &[Item],
) -> Result<(), Error>
    requires making { IsStateClean (state S.Store P.Shelf connection.old) → IsMaking no_schema (state S.Store P.Shelf connection.old) }
    requires lead { Lead no_schema items.now with_uses_by_count }
    ensures makes { Makes with_uses_by_count (state S.Store P.Shelf connection.old) (state S.Store P.Shelf connection.new) result }
    ensures trouble { IfErr result (λ e. IsIntact (state S.Store P.Shelf connection.new) → is_trouble e ≡ true) }
{
    for item in items {
        create_item(connection, *item)?;
    }
    Ok(())
}

/// Creates the tables of a host of version 1 and their indexes, without rows. Their text never
/// changes: existing files have it.
pub fn create_first_tables<S: Alter, P: Shelf>(
    connection: &mut Connection<S, P>,
) -> Result<(), Error>
    requires { IsStateClean (state S.Store P.Shelf connection.old) → IsMaking no_schema (state S.Store P.Shelf connection.old) }
    ensures makes { Makes with_uses_by_count (state S.Store P.Shelf connection.old) (state S.Store P.Shelf connection.new) result }
    ensures trouble { IfErr result (λ e. IsIntact (state S.Store P.Shelf connection.new) → is_trouble e ≡ true) }
{
    create_all(connection, &FIRST)
}

/// Creates the tables of a host of version 2 and their indexes, without rows.
pub fn create_second_tables<S: Alter, P: Shelf>(
    connection: &mut Connection<S, P>,
) -> Result<(), Error>
    requires { IsStateClean (state S.Store P.Shelf connection.old) → IsMaking no_schema (state S.Store P.Shelf connection.old) }
    ensures makes { Makes with_retains (state S.Store P.Shelf connection.old) (state S.Store P.Shelf connection.new) result }
    ensures trouble { IfErr result (λ e. IsIntact (state S.Store P.Shelf connection.new) → is_trouble e ≡ true) }
{
    create_first_tables(connection)?;
    create_item(connection, Item::Locks)?;
    create_item(connection, Item::Retains)?;
    Ok(())
}

/// Creates the tables of a host of version 3 and their indexes, without rows.
pub fn create_third_tables<S: Alter, P: Shelf>(
    connection: &mut Connection<S, P>,
) -> Result<(), Error>
    requires { IsStateClean (state S.Store P.Shelf connection.old) → IsMaking no_schema (state S.Store P.Shelf connection.old) }
    ensures makes { Makes with_tallies (state S.Store P.Shelf connection.old) (state S.Store P.Shelf connection.new) result }
    ensures trouble { IfErr result (λ e. IsIntact (state S.Store P.Shelf connection.new) → is_trouble e ≡ true) }
{
    create_second_tables(connection)?;
    create_item(connection, Item::Tallies)?;
    Ok(())
}

/// Creates the tables of packs and of places in them, without rows, after those of version 3.
fn create_pack_tables<S: Alter, P: Shelf>(connection: &mut Connection<S, P>) -> Result<(), Error>
    requires { IsStateClean (state S.Store P.Shelf connection.old) → IsMaking third_schema (state S.Store P.Shelf connection.old) }
    ensures makes { Makes with_placed (state S.Store P.Shelf connection.old) (state S.Store P.Shelf connection.new) result }
    ensures trouble { IfErr result (λ e. IsIntact (state S.Store P.Shelf connection.new) → is_trouble e ≡ true) }
{
    create_item(connection, Item::Packs)?;
    create_item(connection, Item::Placed)?;
    Ok(())
}

/// Creates the tables of a host of version 4 and their indexes, without rows.
pub fn create_fourth_tables<S: Alter, P: Shelf>(
    connection: &mut Connection<S, P>,
) -> Result<(), Error>
    requires { IsStateClean (state S.Store P.Shelf connection.old) → IsMaking no_schema (state S.Store P.Shelf connection.old) }
    ensures makes { Makes with_garbage (state S.Store P.Shelf connection.old) (state S.Store P.Shelf connection.new) result }
    ensures trouble { IfErr result (λ e. IsIntact (state S.Store P.Shelf connection.new) → is_trouble e ≡ true) }
{
    create_third_tables(connection)?;
    create_pack_tables(connection)?;
    create_item(connection, Item::Notes)?;
    create_item(connection, Item::UploadNotes)?;
    create_item(connection, Item::Rights)?;
    create_item(connection, Item::Garbage)?;
    Ok(())
}

/// Creates the tables of a host and their indexes, without rows.
pub fn create_tables<S: Alter, P: Shelf>(connection: &mut Connection<S, P>) -> Result<(), Error>
    requires { IsStateClean (state S.Store P.Shelf connection.old) → IsMaking no_schema (state S.Store P.Shelf connection.old) }
    ensures makes { Makes with_unneeded (state S.Store P.Shelf connection.old) (state S.Store P.Shelf connection.new) result }
    ensures trouble { IfErr result (λ e. IsIntact (state S.Store P.Shelf connection.new) → is_trouble e ≡ true) }
{
    create_fourth_tables(connection)?;
    create_item(connection, Item::Unneeded)?;
    Ok(())
}
