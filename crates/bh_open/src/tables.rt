ghost use Rattle.std.specs.Prelude.{◌≡◌, ◌↔◌, true, IsTrue, IfOk, IfErr};
ghost use Rattle.sqlite.specs.Steps.{over_memory};
ghost use Rattle.bh_base.specs.Connections.{state, without_packs};
ghost use Rattle.bh_rows.specs.Means.{is_trouble};
ghost use Rattle.bh_tables.specs.Schema.{first_schema, second_schema, third_schema, fourth_schema, host_schema};
ghost use Rattle.bh_open.specs.Versions.{IsVersionOf, IsHostsSchema};

use crate::found::{HostVersion, NoHost};
use bh_base::connection::Connection;
use bh_compare::same_schema;
use bh_create::{
    create_first_tables, create_fourth_tables, create_second_tables, create_third_tables, make,
};
use bh_shelf::no_shelf::NoShelf;
use bh_types::block_digest::BlockDigest;
use bh_types::limits::Limits;
use sqlite::{Connection as Database, Error, MemStore};
use sqlite_schema::schema::Schema;
use std::alloc::Global;

/// A new host's database in memory.
fn new_tables(alloc: Global) -> Result<Connection<MemStore, NoShelf>, Error>
    ensures schema { IfOk result (λ connection. (state over_memory without_packs connection).now.schema ≡ host_schema) }
    ensures trouble { IfErr result (λ e. is_trouble e ≡ true) }
{
    let database = Database::open_in_memory(alloc)?;
    let mut connection = Connection {
        database,
        packs: NoShelf,
    };
    make(&mut connection, Limits::default(), BlockDigest::Sha256)?;
    Ok(connection)
}

/// The tables of a host of version 1 in memory, in a transaction.
fn first_tables(alloc: Global) -> Result<Connection<MemStore, NoShelf>, Error>
    ensures schema { IfOk result (λ connection. (state over_memory without_packs connection).now.schema ≡ first_schema) }
    ensures trouble { IfErr result (λ e. is_trouble e ≡ true) }
{
    let database = Database::open_in_memory(alloc)?;
    let mut connection = Connection {
        database,
        packs: NoShelf,
    };
    connection.begin()?;
    create_first_tables(&mut connection)?;
    Ok(connection)
}

/// Those of a host of version 2.
fn second_tables(alloc: Global) -> Result<Connection<MemStore, NoShelf>, Error>
    ensures schema { IfOk result (λ connection. (state over_memory without_packs connection).now.schema ≡ second_schema) }
    ensures trouble { IfErr result (λ e. is_trouble e ≡ true) }
{
    let database = Database::open_in_memory(alloc)?;
    let mut connection = Connection {
        database,
        packs: NoShelf,
    };
    connection.begin()?;
    create_second_tables(&mut connection)?;
    Ok(connection)
}

/// Those of a host of version 3.
fn third_tables(alloc: Global) -> Result<Connection<MemStore, NoShelf>, Error>
    ensures schema { IfOk result (λ connection. (state over_memory without_packs connection).now.schema ≡ third_schema) }
    ensures trouble { IfErr result (λ e. is_trouble e ≡ true) }
{
    let database = Database::open_in_memory(alloc)?;
    let mut connection = Connection {
        database,
        packs: NoShelf,
    };
    connection.begin()?;
    create_third_tables(&mut connection)?;
    Ok(connection)
}

/// Those of a host of version 4.
fn fourth_tables(alloc: Global) -> Result<Connection<MemStore, NoShelf>, Error>
    ensures schema { IfOk result (λ connection. (state over_memory without_packs connection).now.schema ≡ fourth_schema) }
    ensures trouble { IfErr result (λ e. is_trouble e ≡ true) }
{
    let database = Database::open_in_memory(alloc)?;
    let mut connection = Connection {
        database,
        packs: NoShelf,
    };
    connection.begin()?;
    create_fourth_tables(&mut connection)?;
    Ok(connection)
}

fn is_fifth(alloc: Global, schema: &Schema) -> Result<bool, Error>
    ensures is { IfOk result (λ is. IsTrue is ↔ (schema.now ≡ host_schema)) }
    ensures trouble { IfErr result (λ e. is_trouble e ≡ true) }
{
    let connection = new_tables(alloc)?;
    Ok(same_schema(schema, connection.database.schema()))
}

fn is_fourth(alloc: Global, schema: &Schema) -> Result<bool, Error>
    ensures is { IfOk result (λ is. IsTrue is ↔ (schema.now ≡ fourth_schema)) }
    ensures trouble { IfErr result (λ e. is_trouble e ≡ true) }
{
    let connection = fourth_tables(alloc)?;
    Ok(same_schema(schema, connection.database.schema()))
}

fn is_third(alloc: Global, schema: &Schema) -> Result<bool, Error>
    ensures is { IfOk result (λ is. IsTrue is ↔ (schema.now ≡ third_schema)) }
    ensures trouble { IfErr result (λ e. is_trouble e ≡ true) }
{
    let connection = third_tables(alloc)?;
    Ok(same_schema(schema, connection.database.schema()))
}

fn is_second(alloc: Global, schema: &Schema) -> Result<bool, Error>
    ensures is { IfOk result (λ is. IsTrue is ↔ (schema.now ≡ second_schema)) }
    ensures trouble { IfErr result (λ e. is_trouble e ≡ true) }
{
    let connection = second_tables(alloc)?;
    Ok(same_schema(schema, connection.database.schema()))
}

fn is_first(alloc: Global, schema: &Schema) -> Result<bool, Error>
    ensures is { IfOk result (λ is. IsTrue is ↔ (schema.now ≡ first_schema)) }
    ensures trouble { IfErr result (λ e. is_trouble e ≡ true) }
{
    let connection = first_tables(alloc)?;
    Ok(same_schema(schema, connection.database.schema()))
}

/// The version of the host whose tables have this schema, if they are a host's.
pub(crate) fn version_of(alloc: Global, schema: &Schema) -> Result<Option<HostVersion>, Error>
    ensures is { IfOk result (λ found. IsVersionOf schema.now found) }
    ensures trouble { IfErr result (λ e. is_trouble e ≡ true) }
{
    if is_fifth(alloc, schema)? {
        Ok(Some(HostVersion::Fifth))
    } else if is_fourth(alloc, schema)? {
        Ok(Some(HostVersion::Fourth))
    } else if is_third(alloc, schema)? {
        Ok(Some(HostVersion::Third))
    } else if is_second(alloc, schema)? {
        Ok(Some(HostVersion::Second))
    } else if is_first(alloc, schema)? {
        Ok(Some(HostVersion::First))
    } else {
        Ok(None)
    }
}

/// Whether a schema has a host's tables, of any version.
pub fn is_hosts(alloc: Global, schema: &Schema) -> Result<bool, Error>
    ensures is { IfOk result (λ is. IsTrue is ↔ IsHostsSchema schema.now) }
    ensures trouble { IfErr result (λ e. is_trouble e ≡ true) }
{
    match version_of(alloc, schema)? {
        Some(_version) => Ok(true),
        None => Ok(false),
    }
}

/// Whether its table `host` is that of a host of version 0, which had no `digest`.
fn is_of_version_0(schema: &Schema) -> bool {
    let Some(at) = schema.table_named(b"host") else {
        return false;
    };
    let Some(host) = schema.tables.get(at) else {
        return false;
    };
    host.columns.len() == 5
        && host.column_named(b"version").is_some()
        && host.column_named(b"max_body").is_some()
}

/// Why a schema isn't a host's.
pub(crate) fn why_none(schema: &Schema) -> NoHost {
    if is_of_version_0(schema) {
        NoHost::OtherVersion(0)
    } else if schema.tables.is_empty() && schema.indexes.is_empty() && schema.views.is_empty() {
        NoHost::NoTable
    } else {
        NoHost::OtherTables
    }
}
