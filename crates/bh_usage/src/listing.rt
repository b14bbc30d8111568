ghost use Rattle.std.specs.Prelude.{◌≡◌, map, IfOk, OnOk};
ghost use Rattle.bh_storage.specs.Calls.{Lists};
ghost use Rattle.bh_storage.specs.Reports.{tenant_view, tenants_told};
ghost use Rattle.bh_base.specs.Connections.{IsClean, tables, InTransaction, StaysWithin, StaysOpen};
ghost use Rattle.bh_schema.specs.Calls.{MayRead};
ghost use Rattle.bh_schema.specs.Working.{Works, StillWorks};
ghost use Rattle.bh_usage.specs.Listed.{tenant_seen, told_with};

use crate::rows::{ListedTenant, tenant_list};
use bh_base::connection::Connection;
use bh_schema::rows::counts::{TenantSum, tenant_sum};
use bh_schema::trouble::or_trouble;
use bh_shelf::shelf::Shelf;
use bh_storage::error::Trouble;
use bh_storage::report::TenantReport;
use sqlite::{Alter, Error};
use std::alloc::Global;

/// A tenant, with its number of access keys.
fn with_keys<S: Alter, P: Shelf>(
    connection: &mut Connection<S, P>,
    alloc: Global,
    listed: &ListedTenant,
) -> Result<TenantReport, Error>
    requires inside { InTransaction S.Store P.Shelf connection.old }
    ensures reads { MayRead S.Store P.Shelf connection.old connection.new result }
    ensures told { IfOk result (λ told. IsClean S.Store P.Shelf connection.new
        → tenant_view told ≡ told_with (tables S.Store P.Shelf connection.old) (tenant_seen listed.now)) }
{
    let keys = tenant_sum(connection, listed.name.as_str(), TenantSum::Keys)?;
    let name = String::from_str(alloc, listed.name.as_str())?;
    Ok(TenantReport {
        name,
        quota: listed.quota,
        used: listed.used,
        keys,
    })
}

fn all_with_keys<S: Alter, P: Shelf>(
    connection: &mut Connection<S, P>,
    alloc: Global,
    listed: &[ListedTenant],
) -> Result<Vec<TenantReport>, Error>
    requires inside { InTransaction S.Store P.Shelf connection.old }
    ensures reads { MayRead S.Store P.Shelf connection.old connection.new result }
    ensures told { IfOk result (λ all. IsClean S.Store P.Shelf connection.new
        → map tenant_view all.items ≡ map (λ t. told_with (tables S.Store P.Shelf connection.old) (tenant_seen t)) listed.now) }
{
    let mut all = Vec::new(alloc);
    for tenant in listed {
        let told = with_keys(connection, alloc, tenant)?;
        all.push(told)?;
    }
    Ok(all)
}

fn read_all<S: Alter, P: Shelf>(
    connection: &mut Connection<S, P>,
    alloc: Global,
) -> Result<Vec<TenantReport>, Error>
    requires inside { InTransaction S.Store P.Shelf connection.old }
    ensures reads { MayRead S.Store P.Shelf connection.old connection.new result }
    ensures told { IfOk result (λ all. IsClean S.Store P.Shelf connection.new
        → map tenant_view all.items ≡ tenants_told (tables S.Store P.Shelf connection.old)) }
{
    let listed = tenant_list(connection, alloc)?;
    all_with_keys(connection, alloc, &listed)
}

/// All tenants, by name in byte order.
pub fn tenants<S: Alter, P: Shelf>(
    connection: &mut Connection<S, P>,
    alloc: Global,
) -> Result<Vec<TenantReport>, Trouble>
    requires { Works S.Store P.Shelf connection.old }
    ensures within { StaysWithin S.Store P.Shelf connection.old connection.new }
    ensures opens { OnOk result (StaysOpen S.Store P.Shelf connection.old connection.new) }
    ensures working { OnOk result (StillWorks S.Store P.Shelf connection.old connection.new) }
    ensures lists { IfOk result (λ listed. IsClean S.Store P.Shelf connection.new
        → Lists listed.items (tables S.Store P.Shelf connection.old) (tables S.Store P.Shelf connection.new)) }
{
    or_trouble(read_all(connection, alloc))
}
