//! Adds rows without bodies, each as it is in another host.

ghost use Rattle.std.specs.Prelude.{◌≡◌, ◌∷◌, [], OnOk};
ghost use Rattle.bh_tables.specs.Typed.{KeyRow, LockRow, UploadRow, RetainRow};
ghost use Rattle.bh_base.specs.Connections.{InTransaction, Becomes};
ghost use Rattle.bh_tenant_rows.specs.Shown.{shown_key, shown_lock, shown_upload, shown_retain};
ghost use Rattle.bh_tenant_rows.specs.Brought.{with_keys, with_locks, with_uploads, with_retains};
ghost use Rattle.bh_schema.specs.Calls.{Writes};
ghost use Rattle.bh_moved.specs.Rows.{key_of, lock_of, upload_of, retain_of};

use crate::cells::number_at;
use bh_base::connection::Connection;
use bh_schema::rows::keys::insert_key;
use bh_schema::rows::locks::insert_lock;
use bh_schema::rows::retains::insert_retain;
use bh_shelf::shelf::Shelf;
use bh_uploads::rows::uploads::{UploadRecord, insert_upload};
use sqlite::{Alter, Error, Row};

/// Adds an access key with its secret.
pub fn add_key<T: Alter, Q: Shelf>(
    to: &mut Connection<T, Q>,
    tenant: &str,
    row: &Row,
) -> Result<(), Error>
    requires inside { InTransaction T.Store Q.Shelf to.old }
    ensures writes { Writes T.Store Q.Shelf to.old to.new result }
    ensures added { OnOk result ((k : KeyRow) → row.now ≡ shown_key k
        → Becomes T.Store Q.Shelf to.old to.new (with_keys (key_of tenant.now k ∷ []))) }
{
    let name: String = row.get(0)?;
    let secret: String = row.get(1)?;
    insert_key(to, tenant, &name, &secret)?;
    Ok(())
}

/// Adds a bucket's lock.
pub fn add_lock<T: Alter, Q: Shelf>(
    to: &mut Connection<T, Q>,
    tenant: &str,
    row: &Row,
) -> Result<(), Error>
    requires inside { InTransaction T.Store Q.Shelf to.old }
    ensures writes { Writes T.Store Q.Shelf to.old to.new result }
    ensures added { OnOk result ((l : LockRow) → row.now ≡ shown_lock l
        → Becomes T.Store Q.Shelf to.old to.new (with_locks (lock_of tenant.now l ∷ []))) }
{
    let bucket: String = row.get(0)?;
    insert_lock(to, tenant, &bucket)?;
    Ok(())
}

/// Adds an upload, without its parts.
pub fn add_upload<T: Alter, Q: Shelf>(
    to: &mut Connection<T, Q>,
    tenant: &str,
    row: &Row,
) -> Result<(), Error>
    requires inside { InTransaction T.Store Q.Shelf to.old }
    ensures writes { Writes T.Store Q.Shelf to.old to.new result }
    ensures added { OnOk result ((u : UploadRow) → row.now ≡ shown_upload u
        → Becomes T.Store Q.Shelf to.old to.new (with_uploads (upload_of tenant.now u ∷ []))) }
{
    let number = number_at(row, 0)?;
    let bucket: String = row.get(1)?;
    let okey: Vec<u8> = row.get(2)?;
    let begun = number_at(row, 3)?;
    let upload = UploadRecord {
        tenant,
        upload: number,
        bucket: &bucket,
        okey: &okey,
        begun,
    };
    insert_upload(to, &upload)?;
    Ok(())
}

/// Adds the date of a version.
pub fn add_retain<T: Alter, Q: Shelf>(
    to: &mut Connection<T, Q>,
    tenant: &str,
    row: &Row,
) -> Result<(), Error>
    requires inside { InTransaction T.Store Q.Shelf to.old }
    ensures writes { Writes T.Store Q.Shelf to.old to.new result }
    ensures added { OnOk result ((r : RetainRow) → row.now ≡ shown_retain r
        → Becomes T.Store Q.Shelf to.old to.new (with_retains (retain_of tenant.now r ∷ []))) }
{
    let seq = number_at(row, 0)?;
    let until = number_at(row, 1)?;
    insert_retain(to, tenant, seq, until)?;
    Ok(())
}
