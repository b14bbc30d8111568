//! Whether a bucket has any rows besides its own.

ghost use Rattle.std.specs.Prelude.{◌≡◌, IfOk, IfErr};
ghost use Rattle.bh_schema.specs.Calls.{Reads};
ghost use Rattle.bh_base.specs.Connections.{IsClean, tables, InTransaction, IsTrouble};
ghost use Rattle.bh_schema.specs.Contents.{has_content, IsTextOf};

use bh_base::connection::Connection;
use bh_shelf::shelf::Shelf;
use sqlite::types::ToSql;
use sqlite::{Alter, Error};

/// The kinds of a bucket's contents.
#[derive(Clone, Copy)]
pub enum Content {
    /// Its lock.
    Lock,
    /// A version or a marker in it.
    Version,
    /// An unfinished upload to it.
    Upload,
}

impl Content {
    fn text(self) -> &'static str
        ensures { IsTextOf self result.now }
    {
        match self {
            Content::Lock =>
                "SELECT bucket FROM locks WHERE tenant = ?1 AND bucket = ?2 ORDER BY rowid",
            Content::Version =>
                "SELECT seq FROM versions WHERE tenant = ?1 AND bucket = ?2 ORDER BY okey, id, rowid LIMIT 1",
            Content::Upload =>
                "SELECT upload FROM uploads WHERE tenant = ?1 AND bucket = ?2 ORDER BY okey, upload, rowid LIMIT 1",
        }
    }
}

/// Whether a tenant's bucket of this name has such contents.
pub fn bucket_has<S: Alter, P: Shelf>(
    connection: &mut Connection<S, P>,
    tenant: &str,
    bucket: &str,
    content: Content,
) -> Result<bool, Error>
    requires inside { InTransaction S.Store P.Shelf connection.old }
    ensures reads { Reads S.Store P.Shelf connection.old connection.new result }
    ensures found { IfOk result (λ found. IsClean S.Store P.Shelf connection.new
        → found ≡ has_content content tenant.now bucket.now (tables S.Store P.Shelf connection.old)) }
    ensures trouble { IfErr result (IsTrouble S.Store P.Shelf connection.old connection.new) }
{
    let rows = connection
        .database
        .query_all(content.text(), &[tenant.to_sql(), bucket.to_sql()])?;
    Ok(!rows.is_empty())
}
