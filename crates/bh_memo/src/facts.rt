ghost use Rattle.std.specs.Prelude.{◌≡◌, IsTrue, IfOk, IfSome};
ghost use Rattle.sqlite_typed.specs.Tests.{bytes_eq};

use bh_types::access_key::AccessKeyId;
use bh_types::bucket::BucketName;
use bh_types::bucket_state::BucketState;
use bh_types::names::{KeyName, Secret, TenantName};
use std::alloc::{AllocError, Global};

/// A bucket of a tenant, and its state.
#[derive(Drop)]
pub struct KnownBucket {
    pub tenant: TenantName,
    pub bucket: BucketName,
    pub state: BucketState,
}

impl KnownBucket {
    /// With copies of the names.
    pub fn new(
        tenant: &TenantName,
        bucket: &BucketName,
        state: BucketState,
    ) -> Result<KnownBucket, AllocError>
        ensures { IfOk result (λ known. known ≡ record { tenant = tenant.now; bucket = bucket.now; state = state }) }
    {
        Ok(KnownBucket {
            tenant: tenant.clone()?,
            bucket: bucket.clone()?,
            state,
        })
    }
}

/// An access key, and its secret.
#[derive(Drop)]
pub struct KnownSecret {
    pub key: AccessKeyId,
    pub secret: Secret,
}

impl KnownSecret {
    /// Copies of both, or `None` if the key has no name, or the bytes are not a secret. Fails if
    /// memory runs out.
    pub fn read(
        alloc: Global,
        key: &AccessKeyId,
        secret: &[u8],
    ) -> Result<Option<KnownSecret>, AllocError>
        ensures { IfOk result (λ found. IfSome found (λ known. known ≡ record { key = key.now; secret = secret.now })) }
    {
        let (Some(name), Ok(text)) = (&key.name, str::from_utf8(secret)) else {
            return Ok(None);
        };
        let Some(secret) = Secret::read(alloc, text)? else {
            return Ok(None);
        };
        let tenant = key.tenant.clone()?;
        let name = Some(name.clone()?);
        Ok(Some(KnownSecret {
            key: AccessKeyId { tenant, name },
            secret,
        }))
    }
}

/// Whether two tenants' names are the same.
pub fn same_tenant(a: &TenantName, b: &TenantName) -> bool
    ensures test { result ≡ bytes_eq a.now b.now }
    ensures same { IsTrue result → a.now ≡ b.now }
{
    a.as_str() == b.as_str()
}

/// Whether two buckets' names are the same.
pub fn same_bucket(a: &BucketName, b: &BucketName) -> bool
    ensures test { result ≡ bytes_eq a.now b.now }
    ensures same { IsTrue result → a.now ≡ b.now }
{
    a.as_str() == b.as_str()
}

/// Whether two access keys are the same, and have a name.
pub fn same_key(a: &AccessKeyId, b: &AccessKeyId) -> bool
    ensures { IsTrue result → a.now ≡ b.now }
{
    match (&a.name, &b.name) {
        (Some(name), Some(other)) => same_name(name, other) && same_tenant(&a.tenant, &b.tenant),
        _ => false,
    }
}

fn same_name(a: &KeyName, b: &KeyName) -> bool
    ensures { IsTrue result → a.now ≡ b.now }
{
    a.as_str() == b.as_str()
}
