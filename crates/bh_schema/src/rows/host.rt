ghost use Rattle.std.specs.Prelude.{◌≡◌, ◌++◌, ◌∷◌, [], ◌<◌, ◌^◌, true, map, find, option_map, IfOk, IfErr, OnOk};
ghost use Rattle.bh_schema.specs.Calls.{Reads, Writes};
ghost use Rattle.bh_base.specs.Connections.{IsClean, tables, InTransaction, Becomes, IsTrouble, IsTroubleIf};
ghost use Rattle.bh_schema.specs.Rows.{latest_in, with_stamp};

use crate::rows::number::number;
use crate::rows::reading::first_of;
use crate::rows::writing::write;
use bh_base::connection::Connection;
use bh_shelf::shelf::Shelf;
use sqlite::{Alter, Error};

/// The last stamp, in seconds since 1970, if the host has its row.
pub fn find_latest<S: Alter, P: Shelf>(
    connection: &mut Connection<S, P>,
) -> Result<Option<u64>, Error>
    requires inside { InTransaction S.Store P.Shelf connection.old }
    ensures reads { Reads S.Store P.Shelf connection.old connection.new result }
    ensures found { IfOk result (λ found. IsClean S.Store P.Shelf connection.new
        → found ≡ option_map latest_in (find (λ _. true) (tables S.Store P.Shelf connection.old).host)) }
    ensures trouble { IfErr result (IsTrouble S.Store P.Shelf connection.old connection.new) }
{
    let rows = connection
        .database
        .query_all("SELECT latest FROM host ORDER BY rowid", &[])?;
    first_of(&rows)
}

/// Sets the last stamp.
pub fn set_latest<S: Alter, P: Shelf>(
    connection: &mut Connection<S, P>,
    stamp: u64,
) -> Result<usize, Error>
    requires inside { InTransaction S.Store P.Shelf connection.old }
    requires small { stamp < 2 ^ 63 }
    ensures writes { Writes S.Store P.Shelf connection.old connection.new result }
    ensures holds { OnOk result (Becomes S.Store P.Shelf connection.old connection.new
        (λ rows. record rows { host = map (with_stamp stamp) rows.host })) }
    ensures trouble { IfErr result (IsTrouble S.Store P.Shelf connection.old connection.new) }
{
    write(
        &mut connection.database,
        "UPDATE host SET latest = ?1",
        &[number(stamp)],
    )
}

/// Adds the row of a new host of version 5, with the last stamp 0 and the number of its block
/// digest.
pub fn insert_host<S: Alter, P: Shelf>(
    connection: &mut Connection<S, P>,
    min_part: u64,
    max_body: u64,
    digest: u64,
) -> Result<usize, Error>
    requires inside { InTransaction S.Store P.Shelf connection.old }
    requires min_part { min_part < 2 ^ 63 }
    requires max_body { max_body < 2 ^ 63 }
    requires digest { digest < 2 ^ 63 }
    ensures writes { Writes S.Store P.Shelf connection.old connection.new result }
    ensures holds { OnOk result (Becomes S.Store P.Shelf connection.old connection.new
        (λ rows. record rows {
          host = rows.host ++ record {
            version = 5;
            latest = 0;
            min_part = min_part;
            max_body = max_body;
            digest = digest;
          } ∷ [];
        })) }
    ensures trouble { IfErr result (IsTroubleIf S.Store P.Shelf connection.old connection.new
        (IsClean S.Store P.Shelf connection.old → (tables S.Store P.Shelf connection.old).host ≡ [])) }
{
    write(
        &mut connection.database,
        "INSERT INTO host (version, latest, min_part, max_body, digest) VALUES (5, 0, ?1, ?2, ?3)",
        &[number(min_part), number(max_body), number(digest)],
    )
}
