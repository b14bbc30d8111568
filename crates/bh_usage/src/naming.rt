ghost use Rattle.std.specs.Prelude.{map};
ghost use Rattle.std.specs.String.{string_bytes};
ghost use Rattle.bh_model.specs.Operations as machine;
ghost use Rattle.bh_storage.specs.Calls.{Unless, Carries};
ghost use Rattle.bh_base.specs.Connections.{IsClean, tables, StaysWithin, StaysOpen};
ghost use Rattle.bh_schema.specs.Working.{Works, StillWorks};

use crate::rows::key_names;
use crate::tell::account_of;
use bh_base::connection::Connection;
use bh_schema::trouble::or_trouble;
use bh_shelf::shelf::Shelf;
use bh_storage::error::StepError;
use bh_types::names::TenantName;
use bh_types::refusal::Refusal;
use sqlite::Alter;
use std::alloc::Global;

/// The names of a tenant's access keys, in byte order. Refusal: NoSuchTenant.
pub fn keys<S: Alter, P: Shelf>(
    connection: &mut Connection<S, P>,
    alloc: Global,
    tenant: &TenantName,
) -> Result<Vec<String>, StepError<Refusal>>
    requires working { Works S.Store P.Shelf connection.old }
    ensures within { StaysWithin S.Store P.Shelf connection.old connection.new }
    ensures opens { Unless result (StaysOpen S.Store P.Shelf connection.old connection.new) }
    ensures working { Unless result (StillWorks S.Store P.Shelf connection.old connection.new) }
    ensures carries { IsClean S.Store P.Shelf connection.new
        → Carries (λ names. machine.Keys (map string_bytes names.items)) tenant.now machine.tell_keys
        (tables S.Store P.Shelf connection.old) (tables S.Store P.Shelf connection.new) result }
{
    account_of(connection, tenant)?;
    Ok(or_trouble(key_names(connection, alloc, tenant.as_str()))?)
}
