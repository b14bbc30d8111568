//! A tenant's removal.

ghost use Rattle.std.specs.Prelude.{◌≡◌, IfOk, OnOk};
ghost use Rattle.bh_model.specs.Operations.{Done};
ghost use Rattle.bh_storage.specs.Calls.{Unless, Carries};
ghost use Rattle.bh_view.specs.Removal.{body_numbers, without_tenant};
ghost use Rattle.bh_schema.specs.Calls.{MayRead};
ghost use Rattle.bh_base.specs.Connections.{IsClean, tables, InTransaction};
ghost use Rattle.bh_schema.specs.Working.{Works, WorksOn};
ghost use Rattle.bh_objects.specs.Calls.{Changes};
ghost use Rattle.bh_removal.specs.Removal.{leaves, taken_away};

use crate::decision::require_removable;
use bh_base::connection::Connection;
use bh_schema::rows::removal::{delete_rows, entry_numbers, part_bodies};
use bh_schema::trouble::or_trouble;
use bh_shelf::shelf::Shelf;
use bh_storage::error::{StepError, Trouble};
use bh_types::moment::Moment;
use bh_types::names::TenantName;
use bh_types::refusal::Refusal;
use bh_uploads::writes::drop_bodies;
use sqlite::Alter;
use std::alloc::Global;

/// The names of a tenant's bodies. They come into memory at once, a number for each version and
/// part.
fn body_list<S: Alter, P: Shelf>(
    connection: &mut Connection<S, P>,
    alloc: Global,
    tenant: &TenantName,
) -> Result<Vec<u64>, Trouble>
    requires inside { InTransaction S.Store P.Shelf connection.old }
    ensures reads { MayRead S.Store P.Shelf connection.old connection.new result }
    ensures numbers { IfOk result (λ list. IsClean S.Store P.Shelf connection.new
        → list.items ≡ body_numbers tenant.now (tables S.Store P.Shelf connection.old)) }
{
    let mut bodies = or_trouble(entry_numbers(connection, alloc, tenant.as_str()))?;
    let mut parts = or_trouble(part_bodies(connection, alloc, tenant.as_str()))?;
    bodies.append(&mut parts)?;
    Ok(bodies)
}

/// Deletes a tenant's rows, and then its bodies, which have these names.
fn delete_all<S: Alter, P: Shelf>(
    connection: &mut Connection<S, P>,
    tenant: &TenantName,
    bodies: &[u64],
) -> Result<(), Trouble>
    requires { InTransaction S.Store P.Shelf connection.old }
    ensures changes { Changes S.Store P.Shelf connection.old connection.new result (taken_away tenant.now bodies.now) }
{
    or_trouble(delete_rows(connection, tenant.as_str()))?;
    drop_bodies(connection, tenant, bodies)?;
    Ok(())
}

/// Deletes all of a tenant. Its blocks stay, each with fewer uses.
fn take_away<S: Alter, P: Shelf>(
    connection: &mut Connection<S, P>,
    alloc: Global,
    tenant: &TenantName,
) -> Result<(), Trouble>
    requires { Works S.Store P.Shelf connection.old }
    ensures works { WorksOn S.Store P.Shelf (OnOk result) connection.old connection.new }
    ensures gone { OnOk result (IsClean S.Store P.Shelf connection.new → tables S.Store P.Shelf connection.new
        ≡ without_tenant tenant.now (tables S.Store P.Shelf connection.old)) }
{
    let bodies = body_list(connection, alloc, tenant)?;
    delete_all(connection, tenant, &bodies)?;
    Ok(())
}

/// Removes a tenant at a moment, with its buckets and all in them if `with_objects`. Refusals:
/// NoSuchTenant, TenantNotEmpty, TenantRetained.
pub fn remove_tenant<S: Alter, P: Shelf>(
    connection: &mut Connection<S, P>,
    alloc: Global,
    tenant: &TenantName,
    at: Moment,
    with_objects: bool,
) -> Result<(), StepError<Refusal>>
    requires { Works S.Store P.Shelf connection.old }
    ensures works { WorksOn S.Store P.Shelf (Unless result) connection.old connection.new }
    ensures carries { IsClean S.Store P.Shelf connection.new
        → Carries (λ _. Done) tenant.now (leaves at with_objects)
        (tables S.Store P.Shelf connection.old) (tables S.Store P.Shelf connection.new) result }
{
    require_removable(connection, tenant, at, with_objects)?;
    take_away(connection, alloc, tenant)?;
    Ok(())
}
