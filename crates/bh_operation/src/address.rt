ghost use Rattle.bh_types.specs.Outcomes.{Gives};
ghost use Rattle.bh_operation.specs.Addresses as spec;

use crate::text::Text;
use bh_types::bucket::BucketName;
use bh_types::error::RequestError;
use bh_types::key::ObjectKey;
use bh_types::names::TenantName;
use bh_types::refusal::Refusal;
use std::alloc::Global;

/// An object of the caller, by its bucket's name and its key.
#[derive(Drop)]
pub struct ObjectName {
    pub bucket: BucketName,
    pub key: ObjectKey,
}

/// The name in `tenant:bucket`, or a whole text without a colon, copied. Fails with AccessDenied if
/// the tenant is another one.
#[tactic(auto, unfolding(crate::specs::Addresses::own_part))]
fn own_part(alloc: Global, caller: &TenantName, text: Text) -> Result<Text, RequestError>
    ensures { Gives (λ x. x) result (spec.own_part caller.now text) }
{
    match text.as_str().split_once(':') {
        None => Ok(text),
        Some((tenant, name)) if tenant == caller.as_str() => Ok(Text::copy_of(alloc, name)?),
        Some(_) => Err(RequestError::Refused(Refusal::AccessDenied)),
    }
}

#[tactic(auto, unfolding(crate::specs::Addresses::bucket_name))]
fn bucket_name(text: Text) -> Result<BucketName, RequestError>
    ensures { Gives (λ x. x) result (spec.bucket_name text) }
{
    match BucketName::from_string(text.into_string()) {
        Some(bucket) => Ok(bucket),
        None => Err(RequestError::Refused(Refusal::InvalidBucketName)),
    }
}

#[tactic(auto, unfolding(crate::specs::Addresses::object_key))]
fn object_key(text: Text) -> Result<ObjectKey, RequestError>
    ensures { Gives (λ x. x) result (spec.object_key text) }
{
    ObjectKey::from_string(text.into_string()).ok_or(RequestError::Refused(Refusal::KeyTooLong))
}

/// The caller's bucket that a text names, which depends on the text alone. Fails with AccessDenied
/// if it names another tenant, and with InvalidBucketName if it is not a name.
#[tactic(auto, unfolding(crate::specs::Addresses::bucket_named))]
pub(crate) fn bucket_named(
    alloc: Global,
    caller: &TenantName,
    text: Text,
) -> Result<BucketName, RequestError>
    ensures { Gives (λ x. x) result (spec.bucket_named caller.now text) }
{
    let name = own_part(alloc, caller, text)?;
    bucket_name(name)
}

/// The caller's object that two texts name. Fails as for its bucket, and then with KeyTooLong if
/// the key is too long.
#[tactic(auto, unfolding(crate::specs::Addresses::object_named))]
pub(crate) fn object_named(
    alloc: Global,
    caller: &TenantName,
    bucket: Text,
    key: Text,
) -> Result<ObjectName, RequestError>
    ensures { Gives (λ x. x) result (spec.object_named caller.now bucket key) }
{
    let bucket = bucket_named(alloc, caller, bucket)?;
    let key = object_key(key)?;
    Ok(ObjectName { bucket, key })
}
