//! The routes of targets.
ghost use Rattle.std.specs.Prelude.{◌≡◌, IfOk};
ghost use Rattle.bh_operation.specs.Routes as spec;
ghost use Rattle.bh_operation.specs.Targets as target;

use crate::target::{Kind, text_of};
use matchit::{InsertError, Router};
use std::alloc::{AllocError, Global};
use std::marker::Model;

/// The forms of a path, which decide the kind of its target. They are made once, and matching
/// allocates nothing.
#[derive(Drop)]
pub struct Routes {
    router: Router<Kind>,
}

impl Model for Routes {
    ghost use Rattle.std.specs.Prelude.{◌≡◌};
    ghost use Rattle.bh_operation.specs.Routes as spec;

    ghost Value = { Unit {0} };

    ghost view = { λ r. tt };

    ghost invariant = { λ r. r.router ≡ spec.routes };
}

fn four(alloc: Global) -> Result<Router<Kind>, InsertError>
    ensures { IfOk result (λ router. router ≡ spec.routes) }
{
    let mut router = Router::new(alloc);
    router.insert("/", Kind::Host)?;
    router.insert("/{bucket}", Kind::Bucket)?;
    router.insert("/{bucket}/", Kind::Bucket)?;
    router.insert("/{bucket}/{*key}", Kind::Object)?;
    Ok(router)
}

impl Routes {
    /// The four forms: `/`, `/bucket`, `/bucket/` and `/bucket/key`.
    pub fn new(alloc: Global) -> Result<Routes, AllocError> {
        match four(alloc) {
            Ok(router) => Ok(Routes { router }),
            Err(_) => Err(AllocError),
        }
    }

    /// The kind of a path's target, if the path has one of these forms.
    pub(crate) fn kind_of(&self, path: &[u8]) -> Option<Kind>
        ensures { result ≡ target.kind_of path.now }
    {
        let text = text_of(path)?;
        match self.router.at(text) {
            Ok(found) => Some(*found.value),
            Err(_) => None,
        }
    }
}
