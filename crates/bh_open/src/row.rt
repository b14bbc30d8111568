ghost use Rattle.std.specs.Prelude.{◌≡◌, true, map, [], ◌∷◌, None, IfOk, IfErr, OnOk};
ghost use Rattle.bh_rows.specs.Form.{AreRows};
ghost use Rattle.bh_rows.specs.Means.{is_trouble};
ghost use Rattle.bh_tables.specs.Typed.{HostRow as Stored, host_form};
ghost use Rattle.bh_base.specs.Databases.{IsClean, stands, tables, StaysWithin, WasOpen, ChangesNothing, IsTrouble};
ghost use Rattle.bh_open.specs.Opening.{shown_row, Reads};
ghost use Rattle.bh_open.specs.Versions.{schema_of};

use crate::found::{FoundHost, HostVersion, NoHost};
use bh_types::block_digest::BlockDigest;
use bh_types::limits::Limits;
use sqlite::{Alter, Connection, Error, Row};

#[tactic(auto, using(crate::proofs::Rows::other_version, crate::proofs::Rows::out_of_range, crate::proofs::Rows::other_digest))]
/// A host's values, if the number is this version's, the limits are in range and the digest
/// function is known.
fn found_of(
    version: HostVersion,
    number: u64,
    latest: u64,
    min_part: u64,
    max_body: u64,
    digest: u64,
) -> Result<FoundHost, NoHost>
    ensures of { IfOk result (λ found. found.version ≡ version) }
    ensures reads { (h : Stored) → h.version ≡ number → h.latest ≡ latest → h.min_part ≡ min_part → h.max_body ≡ max_body
        → h.digest ≡ digest → Reads version (h ∷ []) result }
{
    if number != version.number() {
        return Err(NoHost::OtherVersion(number));
    }
    let Some(limits) = Limits::new(min_part, max_body) else {
        return Err(NoHost::NoRow);
    };
    match BlockDigest::from_number(digest) {
        Some(named) => Ok(FoundHost {
            version,
            limits,
            digest: named,
            latest,
        }),
        None => Err(NoHost::OtherDigest(digest)),
    }
}

/// The values in the host's row, if it is of this version, its limits are in range and its digest
/// function is known.
fn read_row(version: HostVersion, row: &Row) -> Result<Result<FoundHost, NoHost>, Error>
    ensures of { IfOk result (λ found. IfOk found (λ f. f.version ≡ version)) }
    ensures read { IfOk result (λ found. (h : Stored) → row.now ≡ shown_row h → Reads version (h ∷ []) found) }
    ensures trouble { IfErr result (λ e. (h : Stored) → row.now ≡ shown_row h → is_trouble e ≡ true) }
{
    Ok(found_of(
        version,
        row.get(0)?,
        row.get(1)?,
        row.get(2)?,
        row.get(3)?,
        row.get(4)?,
    ))
}

#[tactic(auto, using(crate::proofs::Rows::not_sole))]
/// A host's values in these rows, if they are the one row of a host of this version.
pub fn found_in(version: HostVersion, rows: &[Row]) -> Result<Result<FoundHost, NoHost>, Error>
    ensures of { IfOk result (λ found. IfOk found (λ f. f.version ≡ version)) }
    ensures read { IfOk result (λ found. (hosts : _) → rows.now ≡ map shown_row hosts → Reads version hosts found) }
    ensures trouble { IfErr result (λ e. (hosts : _) → rows.now ≡ map shown_row hosts → is_trouble e ≡ true) }
{
    if rows.len() != 1 {
        return Ok(Err(NoHost::NoRow));
    }
    match rows.first() {
        Some(row) => read_row(version, row),
        None => Ok(Err(NoHost::NoRow)),
    }
}

/// The rows of the host's table, in a transaction over the schema of a host of this version.
pub fn host_rows<S: Alter>(
    connection: &mut Connection<S>,
    version: HostVersion,
) -> Result<Vec<Row>, Error>
    requires inside { IsClean S.Store connection.old → (stands S.Store connection.old).inside ≡ true }
    requires schema { IsClean S.Store connection.old → (stands S.Store connection.old).now.schema ≡ schema_of version }
    ensures within { StaysWithin S.Store connection.old connection.new }
    ensures opens { OnOk result (WasOpen S.Store connection.old connection.new) }
    ensures same { OnOk result (ChangesNothing S.Store connection.old connection.new) }
    ensures rows { IfOk result (λ rows. IsClean S.Store connection.new
        → AreRows host_form ((stands S.Store connection.old).now.trees 0)
        → rows.items ≡ map shown_row (tables S.Store connection.old).host) }
    ensures trouble { IfErr result (IsTrouble S.Store connection.old connection.new) }
{
    connection.query_all(
        "SELECT version, latest, min_part, max_body, digest FROM host ORDER BY rowid",
        &[],
    )
}
