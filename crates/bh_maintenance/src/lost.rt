//! The lines of what a check finds lost.

use bh_check::lost::Lost;
use bh_stored::cells::{bytes_in, number_in};
use bh_types::id::{UploadId, VersionId};
use percent_encoding::{AsciiSet, NON_ALPHANUMERIC, percent_encode};
use sqlite_value::row::Row;
use std::alloc::{AllocError, Global};

/// What is escaped in a target: all but unreserved characters (RFC 3986, section 2.3) and `/`.
fn escapes() -> AsciiSet {
    NON_ALPHANUMERIC
        .remove(b'-')
        .remove(b'.')
        .remove(b'_')
        .remove(b'~')
        .remove(b'/')
}

/// A name or key as it is in a target.
fn escaped(alloc: Global, bytes: &[u8]) -> Result<String, AllocError> {
    let mut text = String::new(alloc);
    percent_encode(bytes, escapes()).append_to(&mut text)?;
    Ok(text)
}

/// The line of a version's or an upload's row: kind, tenant, bucket, key and id, as `bucketd-salvage` writes them.
fn line_of(alloc: Global, kind: &str, row: &Row, id: &str) -> Result<String, AllocError> {
    let tenant = escaped(alloc, bytes_in(row, 1))?;
    let bucket = escaped(alloc, bytes_in(row, 3))?;
    let key = escaped(alloc, bytes_in(row, 4))?;
    format!(in alloc; "{kind} {tenant} {bucket} {key} {id}: bytes of it are wrong or missing\n")
}

/// The id in a version's row.
fn id_of(row: &Row) -> VersionId {
    match number_in(row, 5) {
        0 => VersionId::Null,
        number => VersionId::Numbered(number),
    }
}

fn append_versions(alloc: Global, text: &mut String, rows: &[Row]) -> Result<(), AllocError> {
    for row in rows {
        let id = id_of(row).print(alloc)?;
        text.push_str(&line_of(alloc, "version", row, &id)?)?;
    }
    Ok(())
}

fn append_uploads(alloc: Global, text: &mut String, rows: &[Row]) -> Result<(), AllocError> {
    for row in rows {
        let upload = UploadId {
            number: number_in(row, 2),
        };
        let id = upload.print(alloc)?;
        text.push_str(&line_of(alloc, "upload", row, &id)?)?;
    }
    Ok(())
}

/// Appends a line for each version that is lost, and for each upload with a part that is.
pub(crate) fn append_lost(alloc: Global, text: &mut String, lost: &Lost) -> Result<(), AllocError> {
    append_versions(alloc, text, &lost.versions)?;
    append_uploads(alloc, text, &lost.uploads)
}
