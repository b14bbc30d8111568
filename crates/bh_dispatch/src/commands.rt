//! Replies to operators about one tenant, and a tenant's removal.

ghost use Rattle.bh_model.specs.Operations as machine;
ghost use Rattle.bh_host.specs.Offers.{command_answer_view};
ghost use Rattle.bh_schema.specs.Working.{Works};
ghost use Rattle.bh_dispatch.specs.Operating.{CarriesOut};

use bh_base::connection::Connection;
use bh_host::offer::CommandAnswer;
use bh_shelf::shelf::Shelf;
use bh_storage::error::StepError;
use bh_types::moment::Moment;
use bh_types::names::TenantName;
use bh_types::refusal::Refusal;
use bh_usage::{keys, usage};
use sqlite::Alter;
use std::alloc::Global;

/// How many bytes a tenant uses. Refusals: InvalidName, NoSuchTenant.
pub fn show_usage<S: Alter, P: Shelf>(
    connection: &mut Connection<S, P>,
    alloc: Global,
    tenant: &str,
) -> Result<CommandAnswer, StepError<Refusal>>
    requires { Works S.Store P.Shelf connection.old }
    ensures { CarriesOut S.Store P.Shelf command_answer_view tenant.now
        (machine.show_usage tenant.now) connection.old connection.new result }
{
    match TenantName::read(alloc, tenant)? {
        Some(tenant) => usage(connection, &tenant).map(CommandAnswer::Used),
        None => Err(StepError::Refused(Refusal::InvalidName)),
    }
}

/// Removes a tenant at a moment, with its buckets and all in them if `with_objects`. Refusals:
/// InvalidName, NoSuchTenant, TenantNotEmpty, TenantRetained.
pub fn remove_tenant<S: Alter, P: Shelf>(
    connection: &mut Connection<S, P>,
    alloc: Global,
    tenant: &str,
    at: Moment,
    with_objects: bool,
) -> Result<CommandAnswer, StepError<Refusal>>
    requires { Works S.Store P.Shelf connection.old }
    ensures { CarriesOut S.Store P.Shelf command_answer_view tenant.now (machine.remove_tenant at tenant.now with_objects)
        connection.old connection.new result }
{
    let Some(tenant) = TenantName::read(alloc, tenant)? else {
        return Err(StepError::Refused(Refusal::InvalidName));
    };
    let removed = bh_removal::remove_tenant(connection, alloc, &tenant, at, with_objects);
    removed.map(|()| CommandAnswer::Done)
}

/// Names a tenant's access keys. Refusals: InvalidName, NoSuchTenant.
pub fn show_keys<S: Alter, P: Shelf>(
    connection: &mut Connection<S, P>,
    alloc: Global,
    tenant: &str,
) -> Result<CommandAnswer, StepError<Refusal>>
    requires { Works S.Store P.Shelf connection.old }
    ensures { CarriesOut S.Store P.Shelf command_answer_view tenant.now
        (machine.show_keys tenant.now) connection.old connection.new result }
{
    let Some(tenant) = TenantName::read(alloc, tenant)? else {
        return Err(StepError::Refused(Refusal::InvalidName));
    };
    keys(connection, alloc, &tenant).map(CommandAnswer::Keys)
}
