//! The row of a tenant.

ghost use Rattle.std.specs.Prelude.{◌≡◌, ◌∷◌, [], false, OnOk};
ghost use Rattle.std.specs.List.{list_any};
ghost use Rattle.bh_tables.specs.Shown.{is_tenant};
ghost use Rattle.bh_base.specs.Connections.{tables, InTransaction, Becomes};
ghost use Rattle.bh_tenant_rows.specs.Brought.{with_tenants};
ghost use Rattle.bh_schema.specs.Calls.{Writes};
ghost use Rattle.bh_moved.specs.Rows.{tenant_row};

use crate::cells::in_range;
use bh_base::connection::Connection;
use bh_schema::rows::tenants::{
    TenantNumber, TenantNumbers, insert_tenant, set_number, set_numbers,
};
use bh_shelf::shelf::Shelf;
use sqlite::{Alter, Error};

/// Adds a tenant with these numbers, if there is none of its name.
pub fn bring_account<T: Alter, Q: Shelf>(
    to: &mut Connection<T, Q>,
    tenant: &str,
    numbers: TenantNumbers,
) -> Result<(), Error>
    requires inside { InTransaction T.Store Q.Shelf to.old }
    ensures writes { Writes T.Store Q.Shelf to.old to.new result }
    ensures holds { OnOk result (list_any (is_tenant tenant.now) (tables T.Store Q.Shelf to.old).tenants ≡ false
        → Becomes T.Store Q.Shelf to.old to.new (with_tenants (tenant_row tenant.now numbers ∷ []))) }
{
    let quota = in_range(numbers.quota)?;
    let version = in_range(numbers.next_version)?;
    let entry = in_range(numbers.next_entry)?;
    let upload = in_range(numbers.next_upload)?;
    insert_tenant(to, tenant, quota)?;
    set_numbers(to, tenant, version, entry)?;
    set_number(to, tenant, TenantNumber::NextUpload, upload)?;
    Ok(())
}
