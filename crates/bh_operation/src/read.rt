//! What is read of a request.
ghost use Rattle.std.specs.Prelude.{◌≡◌};
ghost use Rattle.bh_operation.specs.Operations as spec;

use crate::method::Method;
use crate::number::wanted;
use crate::query::{Parameter, value_of};
use bh_http::request::Field;
use bh_types::id::UploadId;
use bh_types::names::TenantName;
use bh_types::wanted::Wanted;
use std::alloc::Global;

/// The parts of a request that an operation depends on, and the caller.
#[derive(Drop)]
pub(crate) struct RequestParts<'a> {
    pub(crate) alloc: Global,
    pub(crate) caller: &'a TenantName,
    pub(crate) method: Method,
    pub(crate) parameters: &'a [Parameter],
    pub(crate) fields: &'a [Field<'a>],
}

/// The version that a request names.
pub(crate) fn version_in(parameters: &[Parameter]) -> Wanted
    ensures { result ≡ spec.version_in parameters.now }
{
    wanted(value_of("versionId", parameters))
}

/// The upload that a request names, if its id can be one.
pub(crate) fn upload_in(parameters: &[Parameter]) -> Option<UploadId>
    ensures { result ≡ spec.upload_in parameters.now }
{
    value_of("uploadId", parameters).and_then(UploadId::read)
}
