ghost use Rattle.std.specs.Prelude.{◌≡◌};
ghost use Rattle.std.specs.List.{list_all};
ghost use Rattle.bh_types.specs.Names as spec;

use crate::bytes::{are_name_bytes, has_length};
use crate::text::{Text, TextRule};

/// A tenant's name: 1 to 32 characters of a to z, 0 to 9. Tenants are like those of the Ceph Object
/// Gateway ("Multitenancy").
pub type TenantName = Text<TenantRule>;

/// An access key's name within its tenant: 1 to 32 characters of a to z, 0 to 9.
pub type KeyName = Text<KeyRule>;

/// An access key's secret: 8 to 64 visible ASCII characters, `!` to `~` (RFC 5234, appendix B.1).
/// It has no `Debug`, so that it can't be printed by mistake.
pub type Secret = Text<SecretRule>;

/// The rule for tenants' names.
#[derive(Clone, Drop)]
pub struct TenantRule;

impl TextRule for TenantRule {
    ghost use Rattle.bh_types.specs.Names.{is_tenant_name};

    ghost takes = { is_tenant_name };

    fn takes(text: &[u8]) -> bool {
        is_name(text)
    }
}

/// The rule for access keys' names.
#[derive(Clone, Drop)]
pub struct KeyRule;

impl TextRule for KeyRule {
    ghost use Rattle.bh_types.specs.Names.{is_key_name};

    ghost takes = { is_key_name };

    fn takes(text: &[u8]) -> bool {
        is_name(text)
    }
}

/// The rule for secrets.
#[derive(Clone, Drop)]
pub struct SecretRule;

impl TextRule for SecretRule {
    ghost use Rattle.bh_types.specs.Names.{is_secret};

    ghost takes = { is_secret };

    fn takes(text: &[u8]) -> bool {
        has_length(8, 64, text) && are_secret_bytes(text)
    }
}

fn is_name(text: &[u8]) -> bool
    ensures { result ≡ spec.is_name text.now }
{
    has_length(1, 32, text) && are_name_bytes(text)
}

fn are_secret_bytes(text: &[u8]) -> bool
    ensures { result ≡ list_all spec.is_secret_byte text.now }
{
    text.iter().all(|b| *b >= b'!' && *b <= b'~')
}
