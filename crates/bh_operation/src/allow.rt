ghost use Rattle.std.specs.Prelude.{◌≡◌};
ghost use Rattle.bh_operation.specs.Allowed as spec;

use crate::routes::Routes;
use crate::target::{Kind, path_of};
use bh_http::values::Allow;

fn allow_at(kind: Kind) -> Allow
    ensures { result ≡ spec.allow_at kind }
{
    match kind {
        Kind::Host => Allow::Service,
        Kind::Bucket => Allow::Bucket,
        Kind::Object => Allow::Object,
    }
}

/// The methods that a target supports, for the Allow field of a 405 response (RFC 9110, section
/// 10.2.1). `None` if its path is of no kind.
pub fn allow_of(routes: &Routes, target: &[u8]) -> Option<Allow>
    ensures { result ≡ spec.allow_of target.now }
{
    routes.kind_of(path_of(target)).map(allow_at)
}
