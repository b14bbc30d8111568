ghost use Rattle.std.specs.Prelude.{◌≡◌, IfOk};
ghost use Rattle.bh_docs.specs.Documents.{usage_view};
ghost use Rattle.bh_model.specs.Operations as machine;
ghost use Rattle.bh_storage.specs.Answers.{used_answer};
ghost use Rattle.bh_storage.specs.Calls.{Unless, Carries, Decides};
ghost use Rattle.bh_view.specs.View.{view};
ghost use Rattle.bh_base.specs.Connections.{IsClean, tables, InTransaction, StaysWithin, StaysOpen, ChangesNothing};
ghost use Rattle.bh_schema.specs.Working.{Works, StillWorks};
ghost use Rattle.bh_usage.specs.Counted.{quota_in, used_in, usage_told};

use crate::counts::{RowCounts, row_counts};
use bh_base::connection::Connection;
use bh_docs::Usage;
use bh_schema::rows::tenants::{TenantAccount, find_account};
use bh_schema::trouble::or_trouble;
use bh_shelf::shelf::Shelf;
use bh_storage::error::{StepError, Trouble};
use bh_types::names::TenantName;
use bh_types::refusal::Refusal;
use sqlite::Alter;

/// A tenant's quota and use, in bytes. Refusal: NoSuchTenant.
pub(crate) fn account_of<S: Alter, P: Shelf>(
    connection: &mut Connection<S, P>,
    tenant: &TenantName,
) -> Result<TenantAccount, StepError<Refusal>>
    requires inside { InTransaction S.Store P.Shelf connection.old }
    ensures within { StaysWithin S.Store P.Shelf connection.old connection.new }
    ensures opens { Unless result (StaysOpen S.Store P.Shelf connection.old connection.new) }
    ensures same { Unless result (ChangesNothing S.Store P.Shelf connection.old connection.new) }
    ensures decides { IsClean S.Store P.Shelf connection.new
        → Decides (λ account. account.numbers.quota) (quota_in (view (tables S.Store P.Shelf connection.old) tenant.now))
        (tables S.Store P.Shelf connection.old) (tables S.Store P.Shelf connection.new) result }
    ensures used { IfOk result (λ account. IsClean S.Store P.Shelf connection.new
        → account.used ≡ used_in tenant.now (tables S.Store P.Shelf connection.old)) }
{
    match or_trouble(find_account(connection, tenant.as_str()))? {
        Some(account) => Ok(account),
        None => Err(StepError::Refused(Refusal::NoSuchTenant)),
    }
}

/// The usage of a tenant with this quota and these counts. It fails above 2^64 bytes.
fn told(quota: u64, rows: RowCounts) -> Result<Usage, Trouble>
    ensures { IfOk result (λ usage. usage_view usage ≡ usage_told quota rows) }
{
    let Some(bytes) = rows.bytes.versions.checked_add(rows.bytes.parts) else {
        return Err(Trouble::Store);
    };
    Ok(Usage {
        buckets: rows.buckets,
        bytes,
        markers: rows.entries.markers,
        objects: rows.entries.objects,
        part_bytes: rows.bytes.parts,
        quota,
        uploads: rows.uploads,
        version_bytes: rows.bytes.versions,
        versions: rows.entries.versions,
    })
}

/// A tenant's usage, from its own rows alone. Refusal: NoSuchTenant. A sum of bytes that is too
/// large is a failure of the store.
pub fn usage<S: Alter, P: Shelf>(
    connection: &mut Connection<S, P>,
    tenant: &TenantName,
) -> Result<Usage, StepError<Refusal>>
    requires working { Works S.Store P.Shelf connection.old }
    ensures within { StaysWithin S.Store P.Shelf connection.old connection.new }
    ensures opens { Unless result (StaysOpen S.Store P.Shelf connection.old connection.new) }
    ensures working { Unless result (StillWorks S.Store P.Shelf connection.old connection.new) }
    ensures carries { IsClean S.Store P.Shelf connection.new
        → Carries used_answer tenant.now machine.tell_usage
        (tables S.Store P.Shelf connection.old) (tables S.Store P.Shelf connection.new) result }
{
    let account = account_of(connection, tenant)?;
    let rows = or_trouble(row_counts(connection, tenant.as_str(), account.used))?;
    Ok(told(account.numbers.quota, rows)?)
}
