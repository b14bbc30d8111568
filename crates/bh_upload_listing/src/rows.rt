ghost use Rattle.std.specs.Prelude.{◌≡◌, ◌<◌, ◌^◌, map, IfOk, IfErr};
ghost use Rattle.bh_schema.specs.Calls.{Reads};
ghost use Rattle.bh_base.specs.Connections.{IsClean, tables, InTransaction, IsTrouble};
ghost use Rattle.bh_upload_listing.specs.Rows.{shown_part, parts_from};

use bh_base::connection::Connection;
use bh_schema::rows::number::number;
use bh_shelf::shelf::Shelf;
use sqlite::types::ToSql;
use sqlite::{Alter, Error, Row};

/// The first rows of an upload's parts with a number greater than this one, by number.
pub fn part_rows<S: Alter, P: Shelf>(
    connection: &mut Connection<S, P>,
    tenant: &str,
    upload: u64,
    after: u64,
    count: u64,
) -> Result<Vec<Row>, Error>
    requires inside { InTransaction S.Store P.Shelf connection.old }
    requires upload { upload < 2 ^ 63 }
    requires early { after < 2 ^ 63 }
    requires small { count < 2 ^ 63 }
    ensures reads { Reads S.Store P.Shelf connection.old connection.new result }
    ensures rows { IfOk result (λ rows. IsClean S.Store P.Shelf connection.new
        → rows.items ≡ map shown_part (parts_from tenant.now upload after count (tables S.Store P.Shelf connection.old).parts)) }
    ensures trouble { IfErr result (IsTrouble S.Store P.Shelf connection.old connection.new) }
{
    connection.database.query_all(
        "SELECT number, size, sum, stamp FROM parts WHERE tenant = ?1 AND upload = ?2 AND number > ?3 ORDER BY number, rowid LIMIT ?4",
        &[
            tenant.to_sql(),
            number(upload),
            number(after),
            number(count),
        ],
    )
}
