//! The checks of one row.

ghost use Rattle.std.specs.Prelude.{◌≡◌, ◌≤◌, ◌+◌, [], IsTrue, IfOk};
ghost use Rattle.std.specs.List.{list_all};
ghost use Rattle.std.specs.Str.{IsUtf8};
ghost use Rattle.sqlite.specs.Order.{column};
ghost use Rattle.sqlite_typed.specs.Columns.{bytes_of};
ghost use Rattle.bh_types.specs.Names as names;
ghost use Rattle.bh_tables.specs.Typed.{column_number, host_of, tenant_of, key_of, bucket_of};
ghost use Rattle.bh_view.specs.Sound.{AreDays, IsTenantRow, IsKeyRow, IsBucketRow};
ghost use Rattle.bh_check.specs.Checked.{IsHostBy};
ghost use Rattle.bh_check.specs.Holds.{number_at, IsTenantBy, IsVersionBy, IsRefBy, IsUploadBy, IsPartBy, IsLockedBy, IsDatedBy, IsKeptBy};

use bh_stored::cells::{bytes_in, maybe_number_in, number_in};
use bh_types::bucket::BucketName;
use bh_types::counters::Counters;
use bh_types::limits::{Limits, is_quota};
use bh_types::moment::{LAST_MOMENT, LAST_READING};
use sqlite_value::row::Row;
use std::alloc::{AllocError, Global};
use std::str;

/// A pass over the rows of a table. Some tables have a second one, with the rows that lock or date
/// theirs.
#[derive(Clone, Copy, PartialEq, Eq)]
pub enum Table {
    Tenants,
    Keys,
    Buckets,
    Versions,
    Refs,
    Uploads,
    Parts,
    /// Buckets, with their locks.
    Locked,
    /// Versions, with their dates.
    Dated,
    /// Versions, with their dates and the locks of their buckets.
    Kept,
    Retains,
}

/// Whether the number of bytes is from `low` to `high`.
fn has_length(low: usize, high: usize, text: &[u8]) -> bool
    ensures { result ≡ names.has_length low high text.now }
{
    low <= text.len() && text.len() <= high
}

fn are_name_bytes(text: &[u8]) -> bool
    ensures { result ≡ list_all names.is_name_byte text.now }
{
    text.iter()
        .all(|b| b.is_ascii_lowercase() || b.is_ascii_digit())
}

fn are_secret_bytes(text: &[u8]) -> bool
    ensures { result ≡ list_all names.is_secret_byte text.now }
{
    text.iter().all(|b| 33 <= *b && *b <= 126)
}

fn is_name(text: &[u8]) -> bool
    ensures { result ≡ names.is_name text.now }
{
    has_length(1, 32, text) && are_name_bytes(text)
}

fn is_secret(text: &[u8]) -> bool
    ensures { result ≡ names.is_secret text.now }
{
    has_length(8, 64, text) && are_secret_bytes(text)
}

/// Whether bytes are a valid key of an object.
fn is_key(text: &[u8]) -> bool
    ensures key { IsTrue result → IsTrue (names.is_object_key text.now) }
    ensures text { IsTrue result → IsUtf8 text.now }
{
    has_length(1, 1024, text) && str::from_utf8(text).is_ok()
}

/// Whether bytes are a valid bucket name.
fn is_bucket_name(alloc: Global, text: &[u8]) -> Result<bool, AllocError>
    ensures { IfOk result (λ b. IsTrue b → IsTrue (names.is_bucket_name text.now)) }
{
    match str::from_utf8(text) {
        Ok(name) => Ok(BucketName::from_string(String::from_str(alloc, name)?).is_some()),
        Err(_) => Ok(false),
    }
}

/// Whether a number is the sum of two.
fn is_sum(total: u64, a: u64, b: u64) -> bool
    ensures { IsTrue result → total ≡ a + b }
{
    a <= total && total - a == b
}

/// Whether the host's row is of this version.
pub fn is_host(row: &Row, version: u64) -> bool
    ensures { IsTrue result → IsHostBy version (host_of row.now) }
{
    number_in(row, 2) == version
        && number_in(row, 6) <= 1
        && number_in(row, 3) <= LAST_READING
        && Limits::new(number_in(row, 4), number_in(row, 5)).is_some()
}

fn is_tenant_row(row: &Row) -> bool
    ensures { IsTrue result → IsTenantRow (tenant_of row.now) }
{
    is_name(bytes_in(row, 1))
        && is_quota(number_in(row, 2))
        && Counters::new(number_in(row, 3), number_in(row, 4), number_in(row, 5)).is_some()
}

/// Whether a tenant's row is valid, given the bytes of its versions and of its parts.
pub fn is_tenant(row: &Row, versions: u64, parts: u64) -> bool
    ensures { IsTrue result → IsTenantBy versions parts row.now }
{
    let used = number_in(row, 6);
    is_tenant_row(row) && is_sum(used, versions, parts) && is_quota(used)
}

/// Whether an access key's row is valid.
pub fn is_access_key(row: &Row) -> bool
    ensures { IsTrue result → IsKeyRow (key_of row.now) }
{
    is_name(bytes_in(row, 2)) && is_secret(bytes_in(row, 3))
}

/// Whether a rule has 1 to 3,650 days, if there is one.
fn is_rule(days: Option<u64>) -> bool
    ensures { IsTrue result → AreDays days }
{
    match days {
        Some(days) => 1 <= days && days <= 3650,
        None => true,
    }
}

/// Whether a bucket's row is valid, with no moment after the last stamp.
pub fn is_bucket(alloc: Global, row: &Row, latest: u64) -> Result<bool, AllocError>
    ensures { IfOk result (λ b. IsTrue b → IsBucketRow latest (bucket_of row.now)) }
{
    let is_named = is_bucket_name(alloc, bytes_in(row, 2))?;
    Ok(
        is_named
            && number_in(row, 3) <= latest
            && number_in(row, 4) <= 2
            && is_rule(maybe_number_in(row, 5)),
    )
}

/// The sums against which a version is checked.
#[derive(Clone, Copy)]
pub struct VersionTotals {
    /// The last stamp.
    pub latest: u64,
    /// The next numbers of its tenant.
    pub next_entry: u64,
    pub next_version: u64,
    /// The total size of its body's blocks, and the number of references.
    pub bytes: u64,
    pub refs: u64,
}

/// Whether a delete marker has no body and no checksum.
fn is_bare(row: &Row, refs: u64) -> bool
    ensures { IsTrue result → column_number (column row.now 6) ≡ 1
        → (refs ≡ 0) × (bytes_of (column row.now 9) ≡ []) }
{
    number_in(row, 6) != 1 || refs == 0 && bytes_in(row, 9).is_empty()
}

/// Whether the row of a version or a marker is valid.
pub fn is_version(row: &Row, by: VersionTotals) -> bool
    ensures { IsTrue result → IsVersionBy by.latest by.next_entry by.next_version by.bytes by.refs row.now }
{
    is_key(bytes_in(row, 4))
        && number_in(row, 6) <= 1
        && is_bare(row, by.refs)
        && number_in(row, 7) <= by.latest
        && number_in(row, 8) == by.bytes
        && number_in(row, 2) < by.next_entry
        && number_in(row, 5) < by.next_version
}

/// Whether a reference's row is valid, given how many versions and parts have its body, and its
/// block's size.
pub fn is_ref(row: &Row, versions: u64, parts: u64, bytes: u64) -> bool
    ensures { IsTrue result → IsRefBy versions parts bytes row.now }
{
    (0 < versions || 0 < parts) && number_in(row, 6) == bytes
}

/// Whether an upload's row is valid, given the bytes of its parts.
pub fn is_upload(row: &Row, latest: u64, next_upload: u64, bytes: u64) -> bool
    ensures { IsTrue result → IsUploadBy latest next_upload bytes row.now }
{
    is_key(bytes_in(row, 4))
        && number_in(row, 5) <= latest
        && number_in(row, 2) < next_upload
        && number_in(row, 6) == bytes
}

/// The sums against which a part is checked.
#[derive(Clone, Copy)]
pub struct PartTotals {
    /// The last stamp.
    pub latest: u64,
    /// The next entry number of its tenant.
    pub next_entry: u64,
    /// The total size of its body's blocks.
    pub bytes: u64,
    /// The number of versions with its body.
    pub versions: u64,
}

/// Whether a part's row is valid, except for its checksum.
pub fn is_part(row: &Row, by: PartTotals) -> bool
    ensures { IsTrue result → IsPartBy by.latest by.next_entry by.bytes by.versions row.now }
{
    1 <= number_in(row, 3)
        && number_in(row, 3) <= 10000
        && number_in(row, 6) <= by.latest
        && number_in(row, 7) < by.next_entry
        && number_in(row, 4) == by.bytes
        && by.versions == 0
}

/// Whether a bucket is Enabled if it is locked, given how many rows lock it.
pub fn is_locked(row: &Row, locks: u64) -> bool
    ensures { IsTrue result → IsLockedBy locks row.now }
{
    locks == 0 || number_in(row, 4) == 1
}

/// Whether a version has a number and is not a marker if it is dated, given how many rows date it.
pub fn is_dated(row: &Row, dates: u64) -> bool
    ensures { IsTrue result → IsDatedBy dates row.now }
{
    dates == 0 || 1 <= number_in(row, 5) && number_in(row, 6) == 0
}

/// Whether a version's bucket is locked if the version is dated, given how many rows date and lock
/// them.
pub fn is_kept(dates: u64, locks: u64) -> bool
    ensures { IsTrue result → IsKeptBy dates locks }
{
    dates == 0 || 0 < locks
}

/// Whether a date is a moment.
pub fn is_date(row: &Row) -> bool
    ensures { IsTrue result → number_at 3 row.now ≤ 251_000_000_000 }
{
    number_in(row, 3) <= LAST_MOMENT
}
