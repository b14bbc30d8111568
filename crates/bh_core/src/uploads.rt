ghost use Rattle.std.specs.Prelude.{◌≡◌};
ghost use Rattle.bh_model.specs.State as spec;

use bh_types::moment::Moment;

/// Uploads that began before this moment, in seconds since 1970, are stale under a rule of `days`
/// days (Amazon S3 API Reference, AbortIncompleteMultipartUpload).
pub fn stale_before(days: u64, at: Moment) -> u64
    ensures { result ≡ spec.stale_before days at }
{
    let day = at.seconds() / 86_400;
    86_400 * day.saturating_sub(days)
}
