ghost use Rattle.std.specs.Prelude.{◌≡◌, ◌<◌, length, position, IfOk, IfSome};
ghost use Rattle.bh_types.specs.AccessKeys as spec;

use crate::names::{KeyName, TenantName};
use std::alloc::{AllocError, Global};

/// An access key's id, `tenant$name`, as it was sent. The tenant may not exist, and the text after
/// the first `$` may not be a key's name.
#[derive(Drop)]
pub struct AccessKeyId {
    pub tenant: TenantName,
    /// The key's name within its tenant, or `None` if the text after the first `$` is not a name.
    pub name: Option<KeyName>,
}

impl AccessKeyId {
    /// Parses an id. `None` if the text before the first `$` is not a tenant's name. Fails if
    /// memory runs out.
    pub fn read(alloc: Global, id: &[u8]) -> Result<Option<AccessKeyId>, AllocError>
        ensures { IfOk result (λ found. found ≡ spec.access_key id.now) }
    {
        match dollar_at(id) {
            None => Ok(None),
            Some(at) => read_parts(alloc, &id[..at], &id[at + 1..]),
        }
    }
}

fn dollar_at(id: &[u8]) -> Option<usize>
    ensures place { result ≡ position spec.is_dollar id.now }
    ensures bound { IfSome result (λ at. at < length id.now) }
{
    id.iter().position(|b| *b == b'$')
}

fn read_parts(alloc: Global, tenant: &[u8], name: &[u8]) -> Result<Option<AccessKeyId>, AllocError>
    ensures { IfOk result (λ found. found ≡ spec.access_key_of tenant.now name.now) }
{
    let Some(tenant) = tenant_named(alloc, tenant)? else {
        return Ok(None);
    };
    let name = key_named(alloc, name)?;
    Ok(Some(AccessKeyId { tenant, name }))
}

fn tenant_named(alloc: Global, name: &[u8]) -> Result<Option<TenantName>, AllocError>
    ensures { IfOk result (λ tenant. tenant ≡ spec.tenant_named name.now) }
{
    match str::from_utf8(name) {
        Ok(text) => TenantName::read(alloc, text),
        Err(_) => Ok(None),
    }
}

fn key_named(alloc: Global, name: &[u8]) -> Result<Option<KeyName>, AllocError>
    ensures { IfOk result (λ key. key ≡ spec.key_named name.now) }
{
    match str::from_utf8(name) {
        Ok(text) => KeyName::read(alloc, text),
        Err(_) => Ok(None),
    }
}
