//! The retention dates of versions in locked buckets: reading, checking and writing them.
ghost use Rattle.std.specs.Prelude.{◌≡◌, ◌<◌, ◌≤◌, ◌^◌, ℕ, Some, IfOk, OnOk};
ghost use Rattle.bh_model.specs.Retention as machine;
ghost use Rattle.bh_storage.specs.Calls.{Unless, Decides};
ghost use Rattle.bh_view.specs.View as spec;
ghost use Rattle.bh_schema.specs.Calls.{MayRead};
ghost use Rattle.bh_base.specs.Connections.{IsClean, tables, InTransaction};
ghost use Rattle.bh_schema.specs.Working.{Works, WorksOn};
ghost use Rattle.bh_objects.specs.Calls.{Changes};
ghost use Rattle.bh_objects.specs.Dates.{date_at, new_date_at, past_by, past_date_in, present_by, present_date_in, with_date};

use crate::ids::id_of;
use crate::reads::bucket_locked;
use bh_base::connection::Connection;
use bh_core::retention::{decide_retain, first_date, may_go};
use bh_schema::rows;
use bh_schema::rows::versions::VersionHead;
use bh_schema::trouble::or_trouble;
use bh_shelf::shelf::Shelf;
use bh_storage::error::{StepError, Trouble};
use bh_types::bucket::BucketName;
use bh_types::counters::COUNTER_END;
use bh_types::id::VersionId;
use bh_types::moment::Moment;
use bh_types::names::TenantName;
use bh_types::refusal::Refusal;
use sqlite::{Alter, Error};

/// The date of a tenant's version with this entry number, if it has one.
pub fn version_date<S: Alter, P: Shelf>(
    connection: &mut Connection<S, P>,
    tenant: &TenantName,
    seq: u64,
) -> Result<Option<Moment>, Trouble>
    requires { InTransaction S.Store P.Shelf connection.old }
    ensures reads { MayRead S.Store P.Shelf connection.old connection.new result }
    ensures found { IfOk result (λ date. IsClean S.Store P.Shelf connection.new
        → date ≡ date_at tenant.now seq (tables S.Store P.Shelf connection.old)) }
{
    // No counter reaches this number.
    if seq >= COUNTER_END {
        return Err(Trouble::Store);
    }
    match or_trouble(rows::retains::find_until(connection, tenant.as_str(), seq))? {
        None => Ok(None),
        Some(until) => match Moment::new(until) {
            Some(date) => Ok(Some(date)),
            None => Err(Trouble::Store),
        },
    }
}

/// The date of a new version in a tenant's bucket at a moment, if its request has one. Refusals:
/// InvalidRequest, InvalidArgument. The inner `None` is an invalid date.
pub fn new_date<S: Alter, P: Shelf>(
    connection: &mut Connection<S, P>,
    tenant: &TenantName,
    bucket: &BucketName,
    given: Option<Option<Moment>>,
    at: Moment,
) -> Result<Option<Moment>, StepError<Refusal>>
    requires working { Works S.Store P.Shelf connection.old }
    ensures works { WorksOn S.Store P.Shelf (Unless result) connection.old connection.new }
    ensures decides { IsClean S.Store P.Shelf connection.new
        → Decides (λ until. until) (new_date_at tenant.now bucket.now given at (tables S.Store P.Shelf connection.old))
        (tables S.Store P.Shelf connection.old) (tables S.Store P.Shelf connection.new) result }
{
    match given {
        None => Ok(None),
        Some(date) => {
            let locked = bucket_locked(connection, tenant, bucket)?;
            Ok(first_date(locked, Some(date), at)?)
        }
    }
}

/// A version's date, if it has one. Fails with AccessDenied if it is after a moment.
fn require_past(date: Option<Moment>, at: Moment) -> Result<Option<Moment>, Refusal>
    ensures { result ≡ past_by date at }
{
    match date {
        None => Ok(None),
        Some(until) => {
            if may_go(Some(until), at) {
                Ok(Some(until))
            } else {
                Err(Refusal::AccessDenied)
            }
        }
    }
}

/// The date of a tenant's version with this entry number, if it has one. Fails with AccessDenied if
/// it is after a moment.
pub fn past_date<S: Alter, P: Shelf>(
    connection: &mut Connection<S, P>,
    tenant: &TenantName,
    seq: u64,
    at: Moment,
) -> Result<Option<Moment>, StepError<Refusal>>
    requires working { Works S.Store P.Shelf connection.old }
    ensures works { WorksOn S.Store P.Shelf (Unless result) connection.old connection.new }
    ensures decides { IsClean S.Store P.Shelf connection.new
        → Decides (λ date. date) (past_date_in tenant.now seq at (tables S.Store P.Shelf connection.old))
        (tables S.Store P.Shelf connection.old) (tables S.Store P.Shelf connection.new) result }
{
    let date = version_date(connection, tenant, seq)?;
    Ok(require_past(date, at)?)
}

/// Whether a version with this number in the column `id` can have a date, in a bucket that is locked or not.
fn can_retain(locked: bool, number: u64) -> bool
    ensures { result ≡ machine.can_retain locked (spec.id_of number) }
{
    match id_of(number) {
        VersionId::Null => false,
        VersionId::Numbered(_) => locked,
    }
}

/// The date that a version has already, if any, given that it may get another one at a moment.
/// Refusals: InvalidRequest, InvalidArgument, AccessDenied.
fn require_later(
    able: bool,
    present: Option<Moment>,
    until: Moment,
    at: Moment,
) -> Result<Option<Moment>, Refusal>
    ensures { result ≡ present_by able present until at }
{
    match present {
        None => {
            decide_retain(able, None, Some(until), at)?;
            Ok(None)
        }
        Some(date) => {
            decide_retain(able, Some(date), Some(until), at)?;
            Ok(Some(date))
        }
    }
}

/// The date that a version in a tenant's bucket has already, if any, given that it may get another
/// one at a moment. Refusals: InvalidRequest, InvalidArgument, AccessDenied.
pub fn present_date<S: Alter, P: Shelf>(
    connection: &mut Connection<S, P>,
    tenant: &TenantName,
    bucket: &BucketName,
    head: &VersionHead,
    until: Moment,
    at: Moment,
) -> Result<Option<Moment>, StepError<Refusal>>
    requires working { Works S.Store P.Shelf connection.old }
    ensures works { WorksOn S.Store P.Shelf (Unless result) connection.old connection.new }
    ensures decides { IsClean S.Store P.Shelf connection.new
        → Decides (λ date. date) (present_date_in tenant.now bucket.now head.now.id head.now.seq until at
        (tables S.Store P.Shelf connection.old))
        (tables S.Store P.Shelf connection.old) (tables S.Store P.Shelf connection.new) result }
{
    let locked = bucket_locked(connection, tenant, bucket)?;
    let present = version_date(connection, tenant, head.seq)?;
    let able = can_retain(locked, head.id);
    Ok(require_later(able, present, until, at)?)
}

/// Writes a date in place of another one or of none, or deletes it.
fn write_date<S: Alter, P: Shelf>(
    connection: &mut Connection<S, P>,
    tenant: &str,
    seq: u64,
    present: Option<Moment>,
    next: Option<Moment>,
) -> Result<(), Error>
    requires inside { InTransaction S.Store P.Shelf connection.old }
    requires small { seq < 2 ^ 63 }
    ensures changes { Changes S.Store P.Shelf connection.old connection.new result (with_date tenant.now seq present next) }
{
    match (present, next) {
        (None, None) => Ok(()),
        (None, Some(until)) => {
            rows::retains::insert_retain(connection, tenant, seq, until.seconds())?;
            Ok(())
        }
        (Some(_), Some(until)) => {
            rows::retains::set_until(connection, tenant, seq, until.seconds())?;
            Ok(())
        }
        (Some(_), None) => {
            rows::retains::delete_retain(connection, tenant, seq)?;
            Ok(())
        }
    }
}

/// Changes the date of a tenant's version with this entry number, which has the date `present` or
/// none, to another one or none.
pub fn set_date<S: Alter, P: Shelf>(
    connection: &mut Connection<S, P>,
    tenant: &TenantName,
    seq: u64,
    present: Option<Moment>,
    next: Option<Moment>,
) -> Result<(), Trouble>
    requires inside { InTransaction S.Store P.Shelf connection.old }
    ensures changes { Changes S.Store P.Shelf connection.old connection.new result (with_date tenant.now seq present next) }
    ensures near { OnOk result ((until : ℕ) → next ≡ Some until → until ≤ 251_000_000_000) }
{
    // No counter reaches this number.
    if seq >= COUNTER_END {
        return Err(Trouble::Store);
    }
    or_trouble(write_date(connection, tenant.as_str(), seq, present, next))
}
