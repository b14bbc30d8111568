ghost use Rattle.std.specs.Prelude.{◌≡◌, ◌++◌, ◌+◌, ◌<◌, ◌≤◌, [], length, Ok, IfOk, IfSome, IfNone, OnOk, OnErr};
ghost use Rattle.std.specs.Option.{option_copied};
ghost use Rattle.bh_types.specs.Ranges.{cut};
ghost use Rattle.bh_model.specs.Operations as machine;
ghost use Rattle.bh_view.specs.Blocks.{whole};
ghost use Rattle.bh_view.specs.Bodies.{HasBodies};
ghost use Rattle.bh_view.specs.View.{view};
ghost use Rattle.bh_objects.specs.Found.{mode_in};
ghost use Rattle.bh_schema.specs.Calls.{MayRead};
ghost use Rattle.bh_base.specs.Connections.{IsClean, tables, HasHost};
ghost use Rattle.bh_cache.specs.Kept.{Agrees};
ghost use Rattle.bh_schema.specs.Working.{Works, WorksOn};
ghost use Rattle.bh_storage.specs.Answers.{found_answer};
ghost use Rattle.bh_storage.specs.Calls.{Unless, Carries};
ghost use Rattle.bh_storage.specs.Plans.{to_come, IsMeasured};
ghost use Rattle.bh_tables.specs.Typed.{Tables};
ghost use Rattle.bh_blocks.specs.Plans.{size_of};

use crate::heads::{told_head, wanted_head};
use crate::reads::bucket_state;
use bh_base::connection::Connection;
use bh_blocks::reading::{self, Plan as BodyPlan, Window, plan_body};
use bh_cache::blocks::BlockCache;
use bh_core::ranges::range_of;
use bh_schema::trouble::trouble_of;
use bh_shelf::shelf::Shelf;
use bh_storage::answer::FoundVersion;
use bh_storage::error::{StepError, Trouble};
use bh_storage::plan::Plan;
use bh_types::bucket::BucketName;
use bh_types::bucket_state::BucketState;
use bh_types::counters::COUNTER_END;
use bh_types::key::ObjectKey;
use bh_types::names::TenantName;
use bh_types::range::RangePlan;
use bh_types::rejection::{Detail, Rejection};
use bh_types::wanted::Wanted;
use sqlite::Alter;
use std::alloc::Global;

/// The bytes to return for the request's Range field. Fails with InvalidRange, which carries the
/// object's size.
fn planned(range: Option<&[u8]>, size: u64) -> Result<RangePlan, Rejection>
    ensures { result ≡ machine.planned (option_copied range.entry) size }
{
    match range_of(range, size) {
        Ok(plan) => Ok(plan),
        Err(refusal) => Err(Rejection {
            refusal,
            detail: Detail::ObjectSize(size),
        }),
    }
}

/// The plan of a range's bytes, in a version with this entry number and size. No row is read.
fn version_plan(tenant: &TenantName, seq: u64, size: u64, range: RangePlan) -> Result<Plan, Trouble>
    ensures names { IfOk result (λ plan. (tables : Tables) → length (whole tables.refs tables.blocks (tenant.now, seq)) ≡ size
        → to_come plan tables ≡ cut range (whole tables.refs tables.blocks (tenant.now, seq))) }
    ensures left { IfOk result (λ plan. plan.left ≡ size_of range size) }
{
    // No counter reaches this number.
    if seq >= COUNTER_END {
        return Err(Trouble::Store);
    }
    let plan = plan_body(tenant.as_str(), seq, size, range);
    Ok(Plan {
        tenant: tenant.clone()?,
        body: seq,
        place: plan.place,
        skip: plan.window.skip,
        left: plan.window.left,
    })
}

/// An object of a bucket in this state; the request may have a Range field. Refusals: NoSuchKey,
/// NoSuchVersion, MethodNotAllowed, InvalidRange. No block is read: the answer has a plan of the
/// bytes.
pub fn find_object<S: Alter, P: Shelf>(
    connection: &mut Connection<S, P>,
    tenant: &TenantName,
    bucket: &BucketName,
    key: &ObjectKey,
    wanted: Wanted,
    range: Option<&[u8]>,
    mode: BucketState,
) -> Result<FoundVersion, StepError<Rejection>>
    requires working { Works S.Store P.Shelf connection.old }
    requires mode { IsClean S.Store P.Shelf connection.old
        → mode_in bucket.now (view (tables S.Store P.Shelf connection.old) tenant.now) ≡ Ok mode }
    ensures works { WorksOn S.Store P.Shelf (Unless result) connection.old connection.new }
    ensures same { Unless result (IsClean S.Store P.Shelf connection.new
        → tables S.Store P.Shelf connection.new ≡ tables S.Store P.Shelf connection.old) }
    ensures carries { IsClean S.Store P.Shelf connection.new
        → Carries (found_answer (tables S.Store P.Shelf connection.new)) tenant.now
        (machine.get_object bucket.now key.now wanted (option_copied range.entry))
        (tables S.Store P.Shelf connection.old) (tables S.Store P.Shelf connection.new) result }
    ensures measured { IfOk result (λ found. IsClean S.Store P.Shelf connection.new
        → IsMeasured (tables S.Store P.Shelf connection.new) found) }
{
    let head = wanted_head(connection, tenant, bucket, key, wanted)?;
    let range = planned(range, head.size)?;
    let plan = version_plan(tenant, head.seq, head.size, range)?;
    Ok(FoundVersion {
        head: told_head(mode, head),
        range,
        plan,
    })
}

/// S3's GetObject; the request may have a Range field. Refusals: NoSuchBucket, and those of
/// `find_object`. No block is read: the answer has a plan of the bytes.
pub fn get_object<S: Alter, P: Shelf>(
    connection: &mut Connection<S, P>,
    tenant: &TenantName,
    bucket: &BucketName,
    key: &ObjectKey,
    wanted: Wanted,
    range: Option<&[u8]>,
) -> Result<FoundVersion, StepError<Rejection>>
    requires { Works S.Store P.Shelf connection.old }
    ensures works { WorksOn S.Store P.Shelf (Unless result) connection.old connection.new }
    ensures carries { IsClean S.Store P.Shelf connection.new
        → Carries (found_answer (tables S.Store P.Shelf connection.new)) tenant.now
        (machine.get_object bucket.now key.now wanted (option_copied range.entry))
        (tables S.Store P.Shelf connection.old) (tables S.Store P.Shelf connection.new) result }
    ensures measured { IfOk result (λ found. IsClean S.Store P.Shelf connection.new
        → IsMeasured (tables S.Store P.Shelf connection.new) found) }
{
    let mode = bucket_state(connection, tenant, bucket)?;
    find_object(connection, tenant, bucket, key, wanted, range, mode)
}

/// The next bytes of a version, of at most one block; `None` at the end. It may be called inside a
/// transaction and outside. An error leaves the plan unchanged. A block that is read is cached.
pub fn next_piece<S: Alter, P: Shelf>(
    connection: &mut Connection<S, P>,
    cache: &mut BlockCache,
    alloc: Global,
    plan: &mut Plan,
) -> Result<Option<Vec<u8>>, Trouble>
    requires host { HasHost S.Store P.Shelf connection.old }
    requires agrees { IsClean S.Store P.Shelf connection.old → Agrees cache.old (tables S.Store P.Shelf connection.old).blocks }
    ensures reads { MayRead S.Store P.Shelf connection.old connection.new result }
    ensures agrees { OnOk result (IsClean S.Store P.Shelf connection.new
        → Agrees cache.new (tables S.Store P.Shelf connection.new).blocks) }
    ensures gives { IfOk result (λ piece. IsClean S.Store P.Shelf connection.new → HasBodies (tables S.Store P.Shelf connection.old)
        → IfSome piece (λ bytes.
        to_come plan.old (tables S.Store P.Shelf connection.old)
        ≡ bytes.items ++ to_come plan.new (tables S.Store P.Shelf connection.old))) }
    ensures ends { IfOk result (λ piece. IsClean S.Store P.Shelf connection.new → HasBodies (tables S.Store P.Shelf connection.old)
        → IfNone piece (to_come plan.old (tables S.Store P.Shelf connection.old) ≡ [])) }
    ensures some { IfOk result (λ piece. IfSome piece (λ bytes. 0 < length bytes.items)) }
    ensures falls { IfOk result (λ piece. IfSome piece (λ bytes. length bytes.items + plan.new.left ≤ plan.old.left)) }
    ensures kept { OnErr result (plan.new ≡ plan.old) }
{
    // Called for its contract: outside a transaction the current tables are the committed ones.
    let _outside = connection.database.is_autocommit();
    // No counter reaches these numbers.
    if plan.body >= COUNTER_END || plan.place >= COUNTER_END {
        return Err(Trouble::Store);
    }
    let mut rest = BodyPlan {
        tenant: plan.tenant.as_str(),
        body: plan.body,
        place: plan.place,
        window: Window {
            skip: plan.skip,
            left: plan.left,
        },
    };
    match reading::next_piece(connection, cache, alloc, &mut rest) {
        Ok(piece) => {
            let (place, window) = (rest.place, rest.window);
            plan.place = place;
            plan.skip = window.skip;
            plan.left = window.left;
            Ok(piece)
        }
        Err(error) => Err(trouble_of(error)),
    }
}
