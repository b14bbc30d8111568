ghost use Rattle.std.specs.Prelude.{◌≡◌, ◌&&◌, IfOk};
ghost use Rattle.bh_types.specs.Names.{is_tenant_name, is_key_name, is_secret};

use bh_types::names::{KeyName, Secret, TenantName};
use std::alloc::{AllocError, Global};

/// Whether a text is a valid name of a tenant.
pub fn is_tenant(alloc: Global, tenant: &str) -> Result<bool, AllocError>
    ensures { IfOk result (λ is. is ≡ is_tenant_name tenant.now) }
{
    Ok(TenantName::read(alloc, tenant)?.is_some())
}

/// Whether two texts are valid names of a tenant and of a key.
pub fn are_names(alloc: Global, tenant: &str, name: &str) -> Result<bool, AllocError>
    ensures { IfOk result (λ are. are ≡ (is_tenant_name tenant.now && is_key_name name.now)) }
{
    if TenantName::read(alloc, tenant)?.is_none() {
        return Ok(false);
    }
    Ok(KeyName::read(alloc, name)?.is_some())
}

/// Whether two texts are valid names of a tenant and of a key, and a third is a valid secret.
pub fn are_texts(alloc: Global, tenant: &str, name: &str, secret: &str) -> Result<bool, AllocError>
    ensures { IfOk result (λ are. are ≡ (is_tenant_name tenant.now && is_key_name name.now && is_secret secret.now)) }
{
    if !are_names(alloc, tenant, name)? {
        return Ok(false);
    }
    Ok(Secret::read(alloc, secret)?.is_some())
}
