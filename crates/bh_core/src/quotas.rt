ghost use Rattle.std.specs.Prelude.{◌≡◌};
ghost use Rattle.bh_model.specs.Quotas as spec;

/// Whether a tenant's use may change from `before` to `after` bytes. It may not if `after` is above
/// the quota and above `before`: so after the quota was lowered, changes that free bytes are
/// accepted.
pub fn fits_quota(before: u64, after: u64, quota: u64) -> bool
    ensures { result ≡ spec.fits_quota before after quota }
{
    after <= quota.max(before)
}
