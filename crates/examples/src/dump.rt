//! The rows of a host's tables, as text.

use crate::digest_runs::answers;
use bh_blocks::digester::Sha256Digester;
use bh_event::event::Event;
use example_calls::answer::Fault;
use sqlite::{Alter, Connection, Error, Row};
use std::alloc::{AllocError, Global};

const TABLES: [&str; 10] = [
    "host", "tenants", "keys", "buckets", "versions", "blocks", "refs", "uses", "uploads", "parts",
];

/// More columns than a table has.
const COLUMNS: usize = 16;

fn push_row(alloc: Global, text: &mut String, row: &Row) -> Result<(), AllocError> {
    for at in 0..COLUMNS {
        let Ok(value) = row.get_ref(at) else {
            break;
        };
        text.push_str(format!(in alloc; "{value:?} ")?.as_str())?;
    }
    text.push_str("\n")
}

fn push_rows(alloc: Global, text: &mut String, rows: &[Row]) -> Result<(), AllocError> {
    for row in rows {
        push_row(alloc, text, row)?;
    }
    Ok(())
}

/// All rows of a host's tables, table by table.
pub fn rows_of<S: Alter>(alloc: Global, connection: &mut Connection<S>) -> Result<String, Error> {
    let mut text = String::new(alloc);
    for table in TABLES {
        let query = format!(in alloc; "SELECT rowid, * FROM {table}")?;
        let rows = connection.query_all(query.as_str(), &[])?;
        text.push_str(table)?;
        push_rows(alloc, &mut text, rows.as_slice())?;
    }
    Ok(text)
}

/// The rows of a new host in memory after some events.
pub fn rows_after(alloc: Global, events: &[Event]) -> Result<String, Fault> {
    match answers(alloc, Sha256Digester, 0, events) {
        Ok(Some(mut answered)) => Ok(rows_of(alloc, &mut answered.connection)?),
        _ => Err(Fault::Memory),
    }
}
