ghost use Rattle.std.specs.Prelude.{◌≡◌, ◌++◌, ◌∷◌, [], ◌<◌, ◌^◌, false, map, find, option_map, IfOk, IfErr, OnOk};
ghost use Rattle.std.specs.List.{list_any};
ghost use Rattle.sqlite_keyed.specs.Lists.{delete_where};
ghost use Rattle.bh_tables.specs.Shown.{is_upload, is_part_of};
ghost use Rattle.bh_schema.specs.Calls.{Reads, Writes};
ghost use Rattle.bh_base.specs.Connections.{IsClean, tables, InTransaction, Becomes, IsTroubleIf};
ghost use Rattle.bh_uploads.specs.Rows.{upload_reading, seen_upload, upload_seen, stored_upload, begun_before, IsNewUpload};

use bh_base::connection::Connection;
use bh_schema::rows::number::number;
use bh_schema::rows::reading::{FromRow, all_of, first_of};
use bh_schema::rows::writing::write;
use bh_shelf::shelf::Shelf;
use sqlite::types::ToSql;
use sqlite::{Alter, Error, Row};
use std::alloc::Global;

/// The bucket, the key and the time of an upload.
#[derive(Drop)]
pub struct UploadHead {
    /// The bucket's name.
    pub bucket: String,
    /// The object's key.
    pub key: Vec<u8>,
    /// Seconds since 1970.
    pub begun: u64,
}

/// An upload to be added.
#[derive(Clone, Copy)]
pub struct UploadRecord<'a> {
    pub tenant: &'a str,
    /// Its number among those of the tenant.
    pub upload: u64,
    pub bucket: &'a str,
    pub okey: &'a [u8],
    /// Seconds since 1970.
    pub begun: u64,
}

impl FromRow for UploadHead {
    ghost reading = { upload_reading };

    fn read(row: &Row) -> Result<UploadHead, Error> {
        Ok(UploadHead {
            bucket: row.get(0)?,
            key: row.get(1)?,
            begun: row.get(2)?,
        })
    }
}

/// The upload of this number of a tenant, if there is one.
pub fn find_upload<S: Alter, P: Shelf>(
    connection: &mut Connection<S, P>,
    tenant: &str,
    upload: u64,
) -> Result<Option<UploadHead>, Error>
    requires inside { InTransaction S.Store P.Shelf connection.old }
    requires small { upload < 2 ^ 63 }
    ensures reads { Reads S.Store P.Shelf connection.old connection.new result }
    ensures found { IfOk result (λ found. IsClean S.Store P.Shelf connection.new
        → option_map upload_seen found ≡ option_map seen_upload
        (find (is_upload tenant.now upload) (tables S.Store P.Shelf connection.old).uploads)) }
{
    let rows = connection.database.query_all(
        "SELECT bucket, okey, begun FROM uploads WHERE tenant = ?1 AND upload = ?2 ORDER BY rowid",
        &[tenant.to_sql(), number(upload)],
    )?;
    first_of(&rows)
}

/// The numbers of a bucket's uploads that began before a moment, oldest first.
pub fn stale_list<S: Alter, P: Shelf>(
    connection: &mut Connection<S, P>,
    alloc: Global,
    tenant: &str,
    bucket: &str,
    moment: u64,
) -> Result<Vec<u64>, Error>
    requires inside { InTransaction S.Store P.Shelf connection.old }
    requires small { moment < 2 ^ 63 }
    ensures reads { Reads S.Store P.Shelf connection.old connection.new result }
    ensures numbers { IfOk result (λ list. IsClean S.Store P.Shelf connection.new
        → list.items ≡ map (λ u. u.upload) (begun_before tenant.now bucket.now moment (tables S.Store P.Shelf connection.old).uploads)) }
{
    let rows = connection.database.query_all(
        "SELECT upload FROM uploads WHERE tenant = ?1 AND bucket = ?2 AND begun < ?3 ORDER BY begun, upload, rowid",
        &[tenant.to_sql(), bucket.to_sql(), number(moment)],
    )?;
    all_of(alloc, &rows)
}

/// Adds an upload without parts.
pub fn insert_upload<S: Alter, P: Shelf>(
    connection: &mut Connection<S, P>,
    upload: &UploadRecord<'_>,
) -> Result<usize, Error>
    requires inside { InTransaction S.Store P.Shelf connection.old }
    requires upload { upload.now.upload < 2 ^ 63 }
    requires begun { upload.now.begun < 2 ^ 63 }
    ensures writes { Writes S.Store P.Shelf connection.old connection.new result }
    ensures holds { OnOk result (Becomes S.Store P.Shelf connection.old connection.new
        (λ rows. record rows { uploads = rows.uploads ++ stored_upload upload.now ∷ [] })) }
    ensures trouble { IfErr result (IsTroubleIf S.Store P.Shelf connection.old connection.new
        (IsNewUpload (tables S.Store P.Shelf connection.old) upload.now.tenant.now upload.now.bucket.now upload.now.upload)) }
{
    write(
        &mut connection.database,
        "INSERT INTO uploads (tenant, upload, bucket, okey, begun, bytes_kept) VALUES (?1, ?2, ?3, ?4, ?5, 0)",
        &[
            upload.tenant.to_sql(),
            number(upload.upload),
            upload.bucket.to_sql(),
            upload.okey.to_sql(),
            number(upload.begun),
        ],
    )
}

/// Deletes an upload, if there is one. The store refuses if it has a part.
pub fn delete_upload<S: Alter, P: Shelf>(
    connection: &mut Connection<S, P>,
    tenant: &str,
    upload: u64,
) -> Result<usize, Error>
    requires inside { InTransaction S.Store P.Shelf connection.old }
    requires small { upload < 2 ^ 63 }
    ensures writes { Writes S.Store P.Shelf connection.old connection.new result }
    ensures holds { OnOk result (Becomes S.Store P.Shelf connection.old connection.new
        (λ rows. record rows { uploads = delete_where (is_upload tenant.now upload) rows.uploads })) }
    ensures trouble { IfErr result (IsTroubleIf S.Store P.Shelf connection.old connection.new
        (list_any (is_part_of tenant.now upload) (tables S.Store P.Shelf connection.old).parts ≡ false)) }
{
    write(
        &mut connection.database,
        "DELETE FROM uploads WHERE tenant = ?1 AND upload = ?2",
        &[tenant.to_sql(), number(upload)],
    )
}
