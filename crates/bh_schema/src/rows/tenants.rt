ghost use Rattle.std.specs.Prelude.{◌≡◌, [], ◌<◌, ◌^◌, find, option_map, IfOk, IfErr, OnOk};
ghost use Rattle.bh_tables.specs.Typed.{used_changed};
ghost use Rattle.bh_tables.specs.Shown.{is_tenant};
ghost use Rattle.bh_schema.specs.Calls.{Reads, Writes, WritesOn};
ghost use Rattle.bh_base.specs.Connections.{IsClean, tables, InTransaction, InMidst, Rewrites, Enters, Becomes, IsTrouble, IsTroubleIf};
ghost use Rattle.bh_schema.specs.Written.{with_tenant, with_next, with_numbers};
ghost use Rattle.bh_schema.specs.OwnNumbers.{with_number, IsTextOf};
ghost use Rattle.bh_schema.specs.Rows.{tenant_numbers, tenant_account, IsNewTenant};
ghost use Rattle.bh_schema.specs.Views.{numbers_reading, account_reading};

use crate::rows::number::number;
use crate::rows::reading::{FromRow, first_of};
use crate::rows::tallies::insert_tally;
use crate::rows::writing::write;
use bh_base::connection::Connection;
use bh_shelf::shelf::Shelf;
use sqlite::types::ToSql;
use sqlite::{Alter, Error, Row};

/// A tenant's quota in bytes, and the next number of each of its counters.
#[derive(Clone, Copy)]
pub struct TenantNumbers {
    /// The maximum bytes of its versions and parts.
    pub quota: u64,
    /// For numbered version ids.
    pub next_version: u64,
    /// For upload ids.
    pub next_upload: u64,
    /// For versions, markers and parts.
    pub next_entry: u64,
}

/// A tenant's numbers, and the bytes of its versions and parts.
#[derive(Clone, Copy)]
pub struct TenantAccount {
    pub numbers: TenantNumbers,
    /// In bytes.
    pub used: u64,
}

/// One of a tenant's numbers, by its place among them.
#[derive(Clone, Copy)]
pub enum TenantNumber {
    /// In bytes.
    Quota,
    /// The number of its next upload.
    NextUpload,
    /// The number of its next version, marker or part.
    NextEntry,
}

impl TenantNumber {
    fn text(self) -> &'static str
        ensures { IsTextOf self result.now }
    {
        match self {
            TenantNumber::Quota => "UPDATE tenants SET quota = ?2 WHERE tenant = ?1",
            TenantNumber::NextUpload => "UPDATE tenants SET next_upload = ?2 WHERE tenant = ?1",
            TenantNumber::NextEntry => "UPDATE tenants SET next_entry = ?2 WHERE tenant = ?1",
        }
    }
}

impl FromRow for TenantNumbers {
    ghost reading = { numbers_reading };

    fn read(row: &Row) -> Result<TenantNumbers, Error> {
        Ok(TenantNumbers {
            quota: row.get(0)?,
            next_version: row.get(1)?,
            next_upload: row.get(2)?,
            next_entry: row.get(3)?,
        })
    }
}

impl FromRow for TenantAccount {
    ghost reading = { account_reading };

    fn read(row: &Row) -> Result<TenantAccount, Error> {
        Ok(TenantAccount {
            numbers: TenantNumbers {
                quota: row.get(0)?,
                next_version: row.get(1)?,
                next_upload: row.get(2)?,
                next_entry: row.get(3)?,
            },
            used: row.get(4)?,
        })
    }
}

/// The numbers of the tenant of this name, if there is one.
pub fn find_tenant<S: Alter, P: Shelf>(
    connection: &mut Connection<S, P>,
    name: &str,
) -> Result<Option<TenantNumbers>, Error>
    requires inside { InTransaction S.Store P.Shelf connection.old }
    ensures reads { Reads S.Store P.Shelf connection.old connection.new result }
    ensures found { IfOk result (λ found. IsClean S.Store P.Shelf connection.new
        → found ≡ option_map tenant_numbers (find (is_tenant name.now) (tables S.Store P.Shelf connection.old).tenants)) }
    ensures trouble { IfErr result (IsTrouble S.Store P.Shelf connection.old connection.new) }
{
    let rows = connection.database.query_all(
        "SELECT quota, next_version, next_upload, next_entry FROM tenants WHERE tenant = ?1 ORDER BY rowid",
        &[name.to_sql()],
    )?;
    first_of(&rows)
}

/// The numbers of the tenant of this name and its bytes in use, if there is one. Only its row is
/// read.
pub fn find_account<S: Alter, P: Shelf>(
    connection: &mut Connection<S, P>,
    name: &str,
) -> Result<Option<TenantAccount>, Error>
    requires inside { InTransaction S.Store P.Shelf connection.old }
    ensures reads { Reads S.Store P.Shelf connection.old connection.new result }
    ensures found { IfOk result (λ found. IsClean S.Store P.Shelf connection.new
        → found ≡ option_map (tenant_account (tables S.Store P.Shelf connection.old))
        (find (is_tenant name.now) (tables S.Store P.Shelf connection.old).tenants)) }
    ensures trouble { IfErr result (IsTrouble S.Store P.Shelf connection.old connection.new) }
{
    let rows = connection.database.query_all(
        "SELECT quota, next_version, next_upload, next_entry, used FROM tenants WHERE tenant = ?1 ORDER BY rowid",
        &[name.to_sql()],
    )?;
    first_of(&rows)
}

/// Adds the row of a tenant whose counters begin at 1: the first step of that write.
fn insert_tenant_row<S: Alter, P: Shelf>(
    connection: &mut Connection<S, P>,
    name: &str,
    quota: u64,
) -> Result<usize, Error>
    requires inside { InTransaction S.Store P.Shelf connection.old }
    requires small { quota < 2 ^ 63 }
    ensures writes { WritesOn S.Store P.Shelf connection.old connection.new result }
    ensures enters { OnOk result (Enters S.Store P.Shelf connection.old connection.new (λ sums. sums) (with_tenant name.now quota)) }
    ensures free { OnOk result (IsClean S.Store P.Shelf connection.new
        → IsNewTenant (tables S.Store P.Shelf connection.old) name.now) }
    ensures trouble { IfErr result (IsTroubleIf S.Store P.Shelf connection.old connection.new
        (IsNewTenant (tables S.Store P.Shelf connection.old) name.now)) }
{
    write(
        &mut connection.database,
        "INSERT INTO tenants (tenant, quota, next_version, next_upload, next_entry, used) VALUES (?1, ?2, 1, 1, 1, 0)",
        &[name.to_sql(), number(quota)],
    )
}

/// Adds a tenant whose counters begin at 1.
pub fn insert_tenant<S: Alter, P: Shelf>(
    connection: &mut Connection<S, P>,
    name: &str,
    quota: u64,
) -> Result<usize, Error>
    requires inside { InTransaction S.Store P.Shelf connection.old }
    requires small { quota < 2 ^ 63 }
    ensures writes { Writes S.Store P.Shelf connection.old connection.new result }
    ensures holds { OnOk result (Becomes S.Store P.Shelf connection.old connection.new
        (with_tenant name.now quota)) }
    ensures trouble { IfErr result (IsTroubleIf S.Store P.Shelf connection.old connection.new
        (IsNewTenant (tables S.Store P.Shelf connection.old) name.now)) }
{
    // Asked for what it ensures: a tenant that is not there has no version.
    let _schema = connection.database.schema();
    insert_tenant_row(connection, name, quota)?;
    insert_tally(connection, name)
}

/// Sets a number of the tenant's.
pub fn set_number<S: Alter, P: Shelf>(
    connection: &mut Connection<S, P>,
    tenant: &str,
    which: TenantNumber,
    n: u64,
) -> Result<usize, Error>
    requires inside { InTransaction S.Store P.Shelf connection.old }
    requires small { n < 2 ^ 63 }
    ensures writes { Writes S.Store P.Shelf connection.old connection.new result }
    ensures holds { OnOk result (Becomes S.Store P.Shelf connection.old connection.new (with_number which tenant.now n)) }
    ensures trouble { IfErr result (IsTrouble S.Store P.Shelf connection.old connection.new) }
{
    write(
        &mut connection.database,
        which.text(),
        &[tenant.to_sql(), number(n)],
    )
}

/// Sets the numbers of the tenant's next numbered version and next entry.
pub fn set_numbers<S: Alter, P: Shelf>(
    connection: &mut Connection<S, P>,
    tenant: &str,
    version: u64,
    entry: u64,
) -> Result<usize, Error>
    requires inside { InTransaction S.Store P.Shelf connection.old }
    requires version { version < 2 ^ 63 }
    requires entry { entry < 2 ^ 63 }
    ensures writes { Writes S.Store P.Shelf connection.old connection.new result }
    ensures holds { OnOk result (Becomes S.Store P.Shelf connection.old connection.new (with_numbers tenant.now version entry)) }
    ensures trouble { IfErr result (IsTrouble S.Store P.Shelf connection.old connection.new) }
{
    write(
        &mut connection.database,
        "UPDATE tenants SET next_version = ?2, next_entry = ?3 WHERE tenant = ?1",
        &[tenant.to_sql(), number(version), number(entry)],
    )
}

/// Sets the number of the tenant's next version, marker or part, and adds `more` and subtracts
/// `less` bytes from its use, as one step of their write.
pub fn use_entry<S: Alter, P: Shelf>(
    connection: &mut Connection<S, P>,
    tenant: &str,
    next: u64,
    more: u64,
    less: u64,
) -> Result<usize, Error>
    requires midst { InMidst S.Store P.Shelf connection.old }
    requires small { next < 2 ^ 63 }
    requires more { more < 2 ^ 62 }
    requires less { less < 2 ^ 62 }
    ensures writes { WritesOn S.Store P.Shelf connection.old connection.new result }
    ensures rewrites { OnOk result (Rewrites S.Store P.Shelf connection.old connection.new (used_changed tenant.now more less)
        (with_next tenant.now next)) }
{
    write(
        &mut connection.database,
        "UPDATE tenants SET next_entry = ?2, used = used + ?3 - ?4 WHERE tenant = ?1",
        &[tenant.to_sql(), number(next), number(more), number(less)],
    )
}

/// Sets the numbers of the tenant's next numbered version and next entry, and adds `more` and
/// subtracts `less` bytes from its use, as one step of their write.
pub fn use_numbers<S: Alter, P: Shelf>(
    connection: &mut Connection<S, P>,
    tenant: &str,
    version: u64,
    entry: u64,
    more: u64,
    less: u64,
) -> Result<usize, Error>
    requires midst { InMidst S.Store P.Shelf connection.old }
    requires version { version < 2 ^ 63 }
    requires entry { entry < 2 ^ 63 }
    requires more { more < 2 ^ 62 }
    requires less { less < 2 ^ 62 }
    ensures writes { WritesOn S.Store P.Shelf connection.old connection.new result }
    ensures rewrites { OnOk result (Rewrites S.Store P.Shelf connection.old connection.new (used_changed tenant.now more less)
        (with_numbers tenant.now version entry)) }
{
    write(
        &mut connection.database,
        "UPDATE tenants SET next_version = ?2, next_entry = ?3, used = used + ?4 - ?5 WHERE tenant = ?1",
        &[
            tenant.to_sql(),
            number(version),
            number(entry),
            number(more),
            number(less),
        ],
    )
}

/// Subtracts bytes from a tenant's use, as one step of the write that deletes them.
pub fn use_less<S: Alter, P: Shelf>(
    connection: &mut Connection<S, P>,
    tenant: &str,
    less: u64,
) -> Result<usize, Error>
    requires midst { InMidst S.Store P.Shelf connection.old }
    requires less { less < 2 ^ 62 }
    ensures writes { WritesOn S.Store P.Shelf connection.old connection.new result }
    ensures rewrites { OnOk result (Rewrites S.Store P.Shelf connection.old connection.new (used_changed tenant.now 0 less)
        (λ rows. rows)) }
{
    write(
        &mut connection.database,
        "UPDATE tenants SET used = used - ?2 WHERE tenant = ?1",
        &[tenant.to_sql(), number(less)],
    )
}
