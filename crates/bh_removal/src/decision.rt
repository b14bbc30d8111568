//! Whether a tenant may be removed.

ghost use Rattle.bh_storage.specs.Calls.{Unless, Decides};
ghost use Rattle.bh_view.specs.View.{view};
ghost use Rattle.bh_base.specs.Connections.{IsClean, tables};
ghost use Rattle.bh_schema.specs.Working.{Works, WorksOn};
ghost use Rattle.bh_removal.specs.Removal.{is_empty_tenant, buckets_go, dates_over, may_be_removed};

use bh_base::connection::Connection;
use bh_objects::reads::require_tenant;
use bh_schema::rows::counts::{TenantSum, tenant_sum};
use bh_schema::rows::removal::late_dates;
use bh_schema::trouble::or_trouble;
use bh_shelf::shelf::Shelf;
use bh_storage::error::StepError;
use bh_types::moment::Moment;
use bh_types::names::TenantName;
use bh_types::refusal::Refusal;
use sqlite::Alter;

/// Fails with TenantNotEmpty if a tenant has a bucket.
fn require_empty<S: Alter, P: Shelf>(
    connection: &mut Connection<S, P>,
    tenant: &TenantName,
) -> Result<(), StepError<Refusal>>
    requires { Works S.Store P.Shelf connection.old }
    ensures works { WorksOn S.Store P.Shelf (Unless result) connection.old connection.new }
    ensures decides { IsClean S.Store P.Shelf connection.new
        → Decides (λ _. tt) (is_empty_tenant (view (tables S.Store P.Shelf connection.old) tenant.now))
        (tables S.Store P.Shelf connection.old) (tables S.Store P.Shelf connection.new) result }
{
    let buckets = or_trouble(tenant_sum(connection, tenant.as_str(), TenantSum::Buckets))?;
    if buckets == 0 {
        Ok(())
    } else {
        Err(StepError::Refused(Refusal::TenantNotEmpty))
    }
}

/// Fails with TenantNotEmpty if a tenant has a bucket, unless its buckets go too.
fn require_buckets_go<S: Alter, P: Shelf>(
    connection: &mut Connection<S, P>,
    tenant: &TenantName,
    with_objects: bool,
) -> Result<(), StepError<Refusal>>
    requires { Works S.Store P.Shelf connection.old }
    ensures works { WorksOn S.Store P.Shelf (Unless result) connection.old connection.new }
    ensures decides { IsClean S.Store P.Shelf connection.new
        → Decides (λ _. tt) (buckets_go with_objects (view (tables S.Store P.Shelf connection.old) tenant.now))
        (tables S.Store P.Shelf connection.old) (tables S.Store P.Shelf connection.new) result }
{
    if with_objects {
        Ok(())
    } else {
        require_empty(connection, tenant)
    }
}

/// Fails with TenantRetained if a version of a tenant has a date after a moment.
fn require_over<S: Alter, P: Shelf>(
    connection: &mut Connection<S, P>,
    tenant: &TenantName,
    at: Moment,
) -> Result<(), StepError<Refusal>>
    requires { Works S.Store P.Shelf connection.old }
    ensures works { WorksOn S.Store P.Shelf (Unless result) connection.old connection.new }
    ensures decides { IsClean S.Store P.Shelf connection.new
        → Decides (λ _. tt) (dates_over at (view (tables S.Store P.Shelf connection.old) tenant.now))
        (tables S.Store P.Shelf connection.old) (tables S.Store P.Shelf connection.new) result }
{
    let late = or_trouble(late_dates(connection, tenant.as_str(), at.seconds()))?;
    if late == 0 {
        Ok(())
    } else {
        Err(StepError::Refused(Refusal::TenantRetained))
    }
}

/// Fails unless a tenant may be removed at a moment: NoSuchTenant, TenantNotEmpty unless its buckets
/// go too, TenantRetained.
pub fn require_removable<S: Alter, P: Shelf>(
    connection: &mut Connection<S, P>,
    tenant: &TenantName,
    at: Moment,
    with_objects: bool,
) -> Result<(), StepError<Refusal>>
    requires { Works S.Store P.Shelf connection.old }
    ensures works { WorksOn S.Store P.Shelf (Unless result) connection.old connection.new }
    ensures decides { IsClean S.Store P.Shelf connection.new
        → Decides (λ _. tt) (may_be_removed at with_objects (view (tables S.Store P.Shelf connection.old) tenant.now))
        (tables S.Store P.Shelf connection.old) (tables S.Store P.Shelf connection.new) result }
{
    require_tenant(connection, tenant)?;
    require_buckets_go(connection, tenant, with_objects)?;
    require_over(connection, tenant, at)
}
