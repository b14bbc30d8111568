//! Laws of locked buckets, each as the contract of a function that does nothing.
ghost use Rattle.bh_model.specs.RetentionLaws.{DatedVersionStays, DatedTenantStays, PutDateIsTold};

/// A version that has a retention date can't be deleted before it.
pub fn dated_version_stays()
    ensures { DatedVersionStays }
{}

/// A tenant can't be removed before the date of each of its versions, either.
pub fn dated_tenant_stays()
    ensures { DatedTenantStays }
{}

/// A date that was put is the one that a get returns. It is after the moment, and not before the
/// earlier date.
pub fn put_date_is_told()
    ensures { PutDateIsTold }
{}
