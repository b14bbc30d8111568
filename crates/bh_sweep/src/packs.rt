//! How many packs there are, how many bytes they have, and how many of these blocks have: as their rows count them.

ghost use Rattle.std.specs.Prelude.{◌≡◌, ◌∷◌, [], ◌<◌, length, IfOk, OnOk};
ghost use Rattle.std.specs.List.{sum_by};
ghost use Rattle.bh_tables.specs.Rows.{PackRow, number as stored};
ghost use Rattle.bh_base.specs.Connections.{IsClean, tables, packs, InTransaction, StaysWithin, StaysOpen, WasOpen, ChangesNothing};
ghost use Rattle.bh_base.specs.Places.{KeepsRows};
ghost use Rattle.bh_schema.specs.Working.{Works, StillWorks};
ghost use Rattle.bh_sweep.specs.Counted.{packs_counted};

use bh_base::connection::Connection;
use bh_schema::rows::counts::read_total;
use bh_schema::trouble::or_trouble;
use bh_shelf::shelf::Shelf;
use bh_storage::error::Trouble;
use sqlite::{Alter, Error, Row};

/// What a host's packs have.
#[derive(Clone, Copy)]
pub struct PackTotals {
    /// How many there are.
    pub packs: u64,
    /// Their bytes, up to the last one that was committed.
    pub bytes: u64,
    /// Those of blocks. Blocks that nobody needs count until a sweep takes them.
    pub of_blocks: u64,
}

/// The number of packs.
fn count_rows<S: Alter, P: Shelf>(connection: &mut Connection<S, P>) -> Result<Vec<Row>, Error>
    requires inside { InTransaction S.Store P.Shelf connection.old }
    ensures within { StaysWithin S.Store P.Shelf connection.old connection.new }
    ensures opens { OnOk result (WasOpen S.Store P.Shelf connection.old connection.new) }
    ensures same { OnOk result (ChangesNothing S.Store P.Shelf connection.old connection.new) }
    ensures rows { IfOk result (λ rows. IsClean S.Store P.Shelf connection.new
        → rows.items ≡ (stored (length (packs S.Store P.Shelf connection.old)) ∷ []) ∷ []) }
    ensures still { OnOk result (IsClean S.Store P.Shelf connection.new → KeepsRows S.Store P.Shelf connection.old connection.new) }
{
    connection
        .database
        .query_all("SELECT coalesce(sum(1), 0) FROM packs", &[])
}

/// The bytes of packs.
fn byte_rows<S: Alter, P: Shelf>(connection: &mut Connection<S, P>) -> Result<Vec<Row>, Error>
    requires inside { InTransaction S.Store P.Shelf connection.old }
    ensures within { StaysWithin S.Store P.Shelf connection.old connection.new }
    ensures opens { OnOk result (WasOpen S.Store P.Shelf connection.old connection.new) }
    ensures same { OnOk result (ChangesNothing S.Store P.Shelf connection.old connection.new) }
    ensures rows { IfOk result (λ rows. IsClean S.Store P.Shelf connection.new
        → rows.items ≡ (stored (sum_by (λ (p : PackRow). p.length) (packs S.Store P.Shelf connection.old)) ∷ []) ∷ []) }
    ensures still { OnOk result (IsClean S.Store P.Shelf connection.new → KeepsRows S.Store P.Shelf connection.old connection.new) }
{
    connection
        .database
        .query_all("SELECT coalesce(sum(length), 0) FROM packs", &[])
}

/// The bytes of packs that blocks have.
fn live_rows<S: Alter, P: Shelf>(connection: &mut Connection<S, P>) -> Result<Vec<Row>, Error>
    requires inside { InTransaction S.Store P.Shelf connection.old }
    ensures within { StaysWithin S.Store P.Shelf connection.old connection.new }
    ensures opens { OnOk result (WasOpen S.Store P.Shelf connection.old connection.new) }
    ensures same { OnOk result (ChangesNothing S.Store P.Shelf connection.old connection.new) }
    ensures rows { IfOk result (λ rows. IsClean S.Store P.Shelf connection.new
        → rows.items ≡ (stored (sum_by (λ (p : PackRow). p.live) (packs S.Store P.Shelf connection.old)) ∷ []) ∷ []) }
    ensures still { OnOk result (IsClean S.Store P.Shelf connection.new → KeepsRows S.Store P.Shelf connection.old connection.new) }
{
    connection
        .database
        .query_all("SELECT coalesce(sum(live), 0) FROM packs", &[])
}

/// The three numbers. The store refuses a sum of 2^63 or more.
fn count_packs<S: Alter, P: Shelf>(connection: &mut Connection<S, P>) -> Result<PackTotals, Error>
    requires inside { InTransaction S.Store P.Shelf connection.old }
    ensures within { StaysWithin S.Store P.Shelf connection.old connection.new }
    ensures opens { OnOk result (StaysOpen S.Store P.Shelf connection.old connection.new) }
    ensures same { OnOk result (ChangesNothing S.Store P.Shelf connection.old connection.new) }
    ensures counted { IfOk result (λ totals. IsClean S.Store P.Shelf connection.new
        → totals ≡ packs_counted (packs S.Store P.Shelf connection.new)) }
{
    let packs = count_rows(connection)?;
    let bytes = byte_rows(connection)?;
    let live = live_rows(connection)?;
    Ok(PackTotals {
        packs: read_total(&packs)?,
        bytes: read_total(&bytes)?,
        of_blocks: read_total(&live)?,
    })
}

/// How many packs there are, their bytes, and how many of these blocks have. Nothing changes.
pub fn pack_totals<S: Alter, P: Shelf>(
    connection: &mut Connection<S, P>,
) -> Result<PackTotals, Trouble>
    requires { Works S.Store P.Shelf connection.old }
    ensures within { StaysWithin S.Store P.Shelf connection.old connection.new }
    ensures opens { OnOk result (StaysOpen S.Store P.Shelf connection.old connection.new) }
    ensures working { OnOk result (StillWorks S.Store P.Shelf connection.old connection.new) }
    ensures counted { IfOk result (λ totals. IsClean S.Store P.Shelf connection.new
        → totals ≡ packs_counted (packs S.Store P.Shelf connection.new)) }
    ensures same { IfOk result (λ totals. IsClean S.Store P.Shelf connection.new
        → tables S.Store P.Shelf connection.new ≡ tables S.Store P.Shelf connection.old) }
{
    or_trouble(count_packs(connection))
}
