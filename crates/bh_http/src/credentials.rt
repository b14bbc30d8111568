ghost use Rattle.std.specs.Prelude.{◌≡◌, ℕ, List, IfOk, IfErr, Ok, Err};
ghost use Rattle.bh_http.specs.Credentials as spec;
ghost use Rattle.bh_http.specs.Views.{with_body};

use crate::fields::{Given, field_named};
use crate::request::Head;
use bh_types::access_key::AccessKeyId;
use bh_types::refusal::Refusal;
use std::alloc::{AllocError, Global};

/// The secret in a request's head, unchanged: the value of `x-secret-key`. Fails with AccessDenied
/// unless it and `x-access-key` occur exactly once each.
pub fn secret_of<'a>(head: &Head<'a>) -> Result<&'a [u8], Refusal>
    ensures ok { (body : List ℕ) → IfOk result (λ secret. spec.secret_given (with_body head.now body) ≡ Ok secret.now) }
    ensures err { (body : List ℕ) → IfErr result (λ refusal. spec.secret_given (with_body head.now body) ≡ Err refusal) }
{
    let fields = head.fields.as_slice();
    match (
        field_named(fields, b"x-access-key"),
        field_named(fields, b"x-secret-key"),
    ) {
        (Given::Once(_), Given::Once(secret)) => Ok(secret),
        _ => Err(Refusal::AccessDenied),
    }
}

/// The access key in a request's head, from its only `x-access-key`. Its tenant owns the request,
/// whatever the secret. `None` if the field doesn't occur exactly once, or if the text before its
/// first `$` is not a tenant's name. Fails if memory runs out.
pub fn access_key_of(alloc: Global, head: &Head) -> Result<Option<AccessKeyId>, AllocError>
    ensures { (body : List ℕ) → IfOk result (λ key. key ≡ spec.key_given (with_body head.now body)) }
{
    match field_named(head.fields.as_slice(), b"x-access-key") {
        Given::Once(id) => AccessKeyId::read(alloc, id),
        Given::Missing | Given::Repeated => Ok(None),
    }
}
