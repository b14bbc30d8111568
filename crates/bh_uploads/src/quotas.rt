//! Checks that a tenant's quota has room for a part.
ghost use Rattle.std.specs.Prelude.{◌≡◌, ◌<◌, ◌^◌, IfOk};
ghost use Rattle.bh_storage.specs.Calls.{Unless, Decides};
ghost use Rattle.bh_view.specs.View.{view};
ghost use Rattle.bh_schema.specs.Calls.{MayRead};
ghost use Rattle.bh_base.specs.Connections.{IsClean, tables, InTransaction};
ghost use Rattle.bh_schema.specs.Working.{Works, WorksOn};
ghost use Rattle.bh_uploads.specs.Found.{part_bytes_in, replaced_body, part_entry_in};

use crate::counting::given;
use crate::rows::parts::find_body;
use bh_base::connection::Connection;
use bh_objects::quotas::require_room;
use bh_objects::reads::tenant_account;
use bh_schema::trouble::or_trouble;
use bh_shelf::shelf::Shelf;
use bh_storage::error::{StepError, Trouble};
use bh_types::names::TenantName;
use bh_types::refusal::Refusal;
use sqlite::Alter;

/// The part that a new one replaces.
#[derive(Clone, Copy)]
struct Replaced {
    bytes: u64,
    /// The entry number under which they are stored, or `None` if no part has the number.
    body: Option<u64>,
}

/// The part of a number, if there is one, as far as its replacement needs it.
fn replaced_part<S: Alter, P: Shelf>(
    connection: &mut Connection<S, P>,
    tenant: &TenantName,
    upload: u64,
    number: u32,
) -> Result<Replaced, Trouble>
    requires inside { InTransaction S.Store P.Shelf connection.old }
    requires small { upload < 2 ^ 62 }
    ensures reads { MayRead S.Store P.Shelf connection.old connection.new result }
    ensures bytes { IfOk result (λ replaced. IsClean S.Store P.Shelf connection.new
        → replaced.bytes ≡ part_bytes_in tenant.now upload number (tables S.Store P.Shelf connection.old)) }
    ensures body { IfOk result (λ replaced. IsClean S.Store P.Shelf connection.new
        → replaced.body ≡ replaced_body tenant.now upload number (tables S.Store P.Shelf connection.old)) }
{
    match or_trouble(find_body(connection, tenant.as_str(), upload, u64::from(number)))? {
        Some(found) => Ok(Replaced {
            bytes: found.size,
            body: Some(found.body),
        }),
        None => Ok(Replaced {
            bytes: 0,
            body: None,
        }),
    }
}

/// A new part's entry number, and the part that it replaces.
#[derive(Clone, Copy, PartialEq, Eq)]
pub struct PartEntry {
    pub entry: u64,
    /// The entry number of its body, if there is one.
    pub replaced: Option<u64>,
    /// Its bytes, 0 if there is none.
    pub bytes: u64,
}

/// The entry number of a new part of `added` bytes. Refusals: QuotaExceeded, CounterExhausted. The
/// part that it replaces doesn't count.
pub fn part_entry<S: Alter, P: Shelf>(
    connection: &mut Connection<S, P>,
    tenant: &TenantName,
    upload: u64,
    number: u32,
    added: u64,
) -> Result<PartEntry, StepError<Refusal>>
    requires working { Works S.Store P.Shelf connection.old }
    requires upload { upload < 2 ^ 62 }
    ensures works { WorksOn S.Store P.Shelf (Unless result) connection.old connection.new }
    ensures decides { IsClean S.Store P.Shelf connection.new
        → Decides (λ taken. taken.entry)
        (part_entry_in (part_bytes_in tenant.now upload number (tables S.Store P.Shelf connection.old)) added
        (view (tables S.Store P.Shelf connection.old) tenant.now))
        (tables S.Store P.Shelf connection.old) (tables S.Store P.Shelf connection.new) result }
    ensures replaced { IfOk result (λ taken. IsClean S.Store P.Shelf connection.new
        → taken.replaced ≡ replaced_body tenant.now upload number (tables S.Store P.Shelf connection.old)) }
    ensures bytes { IfOk result (λ taken. IsClean S.Store P.Shelf connection.new
        → part_bytes_in tenant.now upload number (tables S.Store P.Shelf connection.old) ≡ taken.bytes) }
    ensures small { IfOk result (λ taken. taken.entry < 2 ^ 62) }
{
    let replaced = replaced_part(connection, tenant, upload, number)?;
    let account = tenant_account(connection, tenant)?;
    require_room(&account, replaced.bytes, added)?;
    let entry = given(account.counters.entry)?;
    Ok(PartEntry {
        entry,
        replaced: replaced.body,
        bytes: replaced.bytes,
    })
}
