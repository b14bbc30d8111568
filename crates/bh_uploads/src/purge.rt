//! Removal of uploads by the rules of buckets.
ghost use Rattle.std.specs.Prelude.{◌≡◌, ◌++◌, ◌<◌, ◌^◌, false, [], map, flat_map, IfOk, OnOk};
ghost use Rattle.bh_view.specs.View.{without_uploads, rows_purged};
ghost use Rattle.bh_view.specs.Grouped.{same_number};
ghost use Rattle.bh_schema.specs.Calls.{MayRead};
ghost use Rattle.bh_base.specs.Connections.{IsClean, tables, InTransaction};
ghost use Rattle.bh_schema.specs.Rows.{rule_in, listed_rules};
ghost use Rattle.bh_schema.specs.Views.{rule_seen};
ghost use Rattle.bh_schema.specs.Working.{Works, WorksOn};
ghost use Rattle.bh_uploads.specs.Purging.{stale_by, is_among};

use crate::reads::upload_parts;
use crate::rows::uploads::stale_list;
use crate::writes::close_upload;
use bh_base::connection::Connection;
use bh_core::uploads::stale_before;
use bh_schema::rows::reading::list_of;
use bh_schema::rows::rules::BucketRule;
use bh_schema::trouble::or_trouble;
use bh_shelf::shelf::Shelf;
use bh_storage::error::Trouble;
use bh_types::counters::COUNTER_END;
use bh_types::moment::Moment;
use bh_types::names::TenantName;
use sqlite::Alter;
use std::alloc::Global;

/// Checks that a column can have this number.
pub fn in_range(number: u64) -> Result<u64, Trouble>
    ensures same { IfOk result (λ n. n ≡ number) }
    ensures small { IfOk result (λ n. n < 2 ^ 62) }
{
    if number >= COUNTER_END {
        return Err(Trouble::Store);
    }
    Ok(number)
}

/// The numbers of a bucket's uploads that are stale at a moment, by its rule.
fn rule_stale<S: Alter, P: Shelf>(
    connection: &mut Connection<S, P>,
    alloc: Global,
    tenant: &TenantName,
    rule: &BucketRule,
    at: Moment,
) -> Result<Vec<u64>, Trouble>
    requires inside { InTransaction S.Store P.Shelf connection.old }
    ensures reads { MayRead S.Store P.Shelf connection.old connection.new result }
    ensures numbers { IfOk result (λ list. IsClean S.Store P.Shelf connection.new
        → list.items ≡ stale_by tenant.now at (tables S.Store P.Shelf connection.old).uploads (rule_seen rule.now)) }
{
    match rule.days {
        None => Ok(Vec::new(alloc)),
        Some(days) => {
            let before = in_range(stale_before(days, at))?;
            or_trouble(stale_list(
                connection,
                alloc,
                tenant.as_str(),
                rule.bucket.as_str(),
                before,
            ))
        }
    }
}

fn append(numbers: &mut Vec<u64>, mut more: Vec<u64>) -> Result<(), Trouble>
    ensures { OnOk result (numbers.new.items ≡ numbers.old.items ++ more.items) }
{
    numbers.append(&mut more)?;
    Ok(())
}

/// The numbers of a tenant's uploads that are stale by these rules, one rule after the other.
fn stale_of_rules<S: Alter, P: Shelf>(
    connection: &mut Connection<S, P>,
    alloc: Global,
    tenant: &TenantName,
    rules: &[BucketRule],
    at: Moment,
) -> Result<Vec<u64>, Trouble>
    requires inside { InTransaction S.Store P.Shelf connection.old }
    ensures reads { MayRead S.Store P.Shelf connection.old connection.new result }
    ensures numbers { IfOk result (λ list. IsClean S.Store P.Shelf connection.new → list.items
        ≡ flat_map (λ rule. stale_by tenant.now at (tables S.Store P.Shelf connection.old).uploads (rule_seen rule)) rules.now) }
{
    let mut numbers = Vec::new(alloc);
    for rule in rules {
        let found = rule_stale(connection, alloc, tenant, rule, at)?;
        append(&mut numbers, found)?;
    }
    Ok(numbers)
}

/// A tenant's stale uploads and parts.
#[derive(Drop)]
struct StaleUploads {
    /// Their numbers.
    numbers: Vec<u64>,
    /// Whether any of its buckets has a rule.
    ruled: bool,
}

/// The tenant's uploads that are stale at a moment.
fn stale_uploads<S: Alter, P: Shelf>(
    connection: &mut Connection<S, P>,
    alloc: Global,
    tenant: &TenantName,
    at: Moment,
) -> Result<StaleUploads, Trouble>
    requires inside { InTransaction S.Store P.Shelf connection.old }
    ensures reads { MayRead S.Store P.Shelf connection.old connection.new result }
    ensures ruled { IfOk result (λ stale. IsClean S.Store P.Shelf connection.new → stale.ruled ≡ false
        → listed_rules tenant.now (tables S.Store P.Shelf connection.old) ≡ []) }
    ensures numbers { IfOk result (λ stale. IsClean S.Store P.Shelf connection.new → stale.numbers.items
        ≡ flat_map (stale_by tenant.now at (tables S.Store P.Shelf connection.old).uploads)
        (map rule_in (listed_rules tenant.now (tables S.Store P.Shelf connection.old)))) }
{
    let rules: Vec<BucketRule> = or_trouble(list_of(connection, alloc, tenant.as_str()))?;
    let numbers = stale_of_rules(connection, alloc, tenant, &rules, at)?;
    let ruled = !rules.is_empty();
    Ok(StaleUploads { numbers, ruled })
}

/// Deletes a tenant's upload with this number, and its parts, if it exists.
pub fn remove_upload<S: Alter, P: Shelf>(
    connection: &mut Connection<S, P>,
    alloc: Global,
    tenant: &TenantName,
    number: u64,
) -> Result<(), Trouble>
    requires { Works S.Store P.Shelf connection.old }
    ensures works { WorksOn S.Store P.Shelf (OnOk result) connection.old connection.new }
    ensures removed { OnOk result (IsClean S.Store P.Shelf connection.new → tables S.Store P.Shelf connection.new
        ≡ without_uploads tenant.now (λ n. same_number n number) (tables S.Store P.Shelf connection.old)) }
{
    let number = in_range(number)?;
    let list = upload_parts(connection, alloc, tenant, number)?;
    close_upload(connection, tenant, number, &list.bodies)?;
    Ok(())
}

/// Deletes a tenant's uploads with these numbers, and their parts.
fn remove_uploads<S: Alter, P: Shelf>(
    connection: &mut Connection<S, P>,
    alloc: Global,
    tenant: &TenantName,
    numbers: &[u64],
) -> Result<(), Trouble>
    requires { Works S.Store P.Shelf connection.old }
    ensures works { WorksOn S.Store P.Shelf (OnOk result) connection.old connection.new }
    ensures removed { OnOk result (IsClean S.Store P.Shelf connection.new → tables S.Store P.Shelf connection.new
        ≡ without_uploads tenant.now (is_among numbers.now) (tables S.Store P.Shelf connection.old)) }
{
    for number in numbers {
        remove_upload(connection, alloc, tenant, *number)?;
    }
    Ok(())
}

/// Removes a tenant's uploads that are stale at a moment by the rules of their buckets (Amazon S3
/// API Reference, AbortIncompleteMultipartUpload). It deletes their parts and the parts' references
/// to blocks, but no block. If nothing is stale, it takes one seek for the tenant's rules and one
/// for each rule. Returns whether any of its buckets has a rule: without one, nothing can be stale.
pub fn purge<S: Alter, P: Shelf>(
    connection: &mut Connection<S, P>,
    alloc: Global,
    tenant: &TenantName,
    at: Moment,
) -> Result<bool, Trouble>
    requires { Works S.Store P.Shelf connection.old }
    ensures works { WorksOn S.Store P.Shelf (OnOk result) connection.old connection.new }
    ensures purges { OnOk result (IsClean S.Store P.Shelf connection.new
        → tables S.Store P.Shelf connection.new ≡ rows_purged tenant.now at (tables S.Store P.Shelf connection.old)) }
    ensures ruled { IfOk result (λ ruled. IsClean S.Store P.Shelf connection.new → ruled ≡ false
        → listed_rules tenant.now (tables S.Store P.Shelf connection.old) ≡ []) }
{
    let stale = stale_uploads(connection, alloc, tenant, at)?;
    remove_uploads(connection, alloc, tenant, &stale.numbers)?;
    Ok(stale.ruled)
}
