//! A report.
ghost use Rattle.std.specs.Prelude.{◌≡◌, IfOk, IfErr, OnOk};
ghost use Rattle.bh_storage.specs.Calls.{Reports};
ghost use Rattle.bh_base.specs.Connections.{IsClean, tables, InTransaction, StaysWithin, StaysOpen, ChangesNothing, IsTroubleIf};
ghost use Rattle.bh_schema.specs.Working.{Works, StillWorks};
ghost use Rattle.bh_schema.specs.Troubles.{trouble_of};
ghost use Rattle.bh_sweep.specs.Counted.{rows_counted, AreCountable};

use crate::rows::{block_count, clash_count, stored_total, used_total};
use bh_base::connection::Connection;
use bh_schema::trouble::or_trouble;
use bh_shelf::shelf::Shelf;
use bh_storage::error::Trouble;
use bh_storage::report::StoreReport;
use sqlite::{Alter, Error};

fn count_rows<S: Alter, P: Shelf>(connection: &mut Connection<S, P>) -> Result<StoreReport, Error>
    requires inside { InTransaction S.Store P.Shelf connection.old }
    ensures within { StaysWithin S.Store P.Shelf connection.old connection.new }
    ensures opens { OnOk result (StaysOpen S.Store P.Shelf connection.old connection.new) }
    ensures same { OnOk result (ChangesNothing S.Store P.Shelf connection.old connection.new) }
    ensures counts { IfOk result (λ report. IsClean S.Store P.Shelf connection.new
        → report ≡ rows_counted (tables S.Store P.Shelf connection.old)) }
    ensures trouble { IfErr result (IsTroubleIf S.Store P.Shelf connection.old connection.new
        (AreCountable (tables S.Store P.Shelf connection.old))) }
{
    let blocks = block_count(connection)?;
    let stored = stored_total(connection)?;
    let referred = used_total(connection)?;
    let clashes = clash_count(connection)?;
    Ok(StoreReport {
        blocks,
        stored,
        referred,
        clashes,
    })
}

/// Counts what all tenants have stored. It fails only if memory or the store fails, given fewer
/// than 2^63 blocks with fewer than 2^63 bytes in all. References to them may add up to any number
/// of bytes.
pub fn report<S: Alter, P: Shelf>(connection: &mut Connection<S, P>) -> Result<StoreReport, Trouble>
    requires { Works S.Store P.Shelf connection.old }
    ensures within { StaysWithin S.Store P.Shelf connection.old connection.new }
    ensures opens { OnOk result (StaysOpen S.Store P.Shelf connection.old connection.new) }
    ensures working { OnOk result (StillWorks S.Store P.Shelf connection.old connection.new) }
    ensures reports { IfOk result (λ report. IsClean S.Store P.Shelf connection.new
        → Reports report (tables S.Store P.Shelf connection.old) (tables S.Store P.Shelf connection.new)) }
    ensures trouble { IfErr result (λ trouble. (error : Error) × (trouble ≡ trouble_of error)
        × IsTroubleIf S.Store P.Shelf connection.old connection.new (AreCountable (tables S.Store P.Shelf connection.old)) error) }
{
    or_trouble(count_rows(connection))
}
