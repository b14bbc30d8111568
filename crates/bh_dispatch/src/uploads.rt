//! The operations on multipart uploads, as responses of a host's storage.
ghost use Rattle.std.specs.Prelude.{◌≤◌};
ghost use Rattle.bh_types.specs.Rejections.{plainly};
ghost use Rattle.bh_machine.specs.Machine.{finish_upload, upload_operated};
ghost use Rattle.bh_model.specs.Listings as listings;
ghost use Rattle.bh_view.specs.View.{latest_of};
ghost use Rattle.bh_base.specs.Connections.{IsClean, tables};
ghost use Rattle.bh_http.specs.Answers.{response_view};
ghost use Rattle.bh_host.specs.Offers.{responded};
ghost use Rattle.bh_schema.specs.Working.{Works};
ghost use Rattle.bh_dispatch.specs.Operating.{CarriesOut};

use crate::answers::told;
use crate::asked::Asked;
use bh_base::connection::Connection;
use bh_docs::read_complete;
use bh_http::response::Response;
use bh_operation::address::ObjectName;
use bh_operation::operation::UploadOperation;
use bh_operation::page::PartPage;
use bh_shelf::shelf::Shelf;
use bh_storage::error::StepError;
use bh_types::id::UploadId;
use bh_types::names::TenantName;
use bh_types::rejection::Rejection;
use bh_upload_listing::parts::{self, PartsAsked};
use bh_uploads::begin::NewUpload;
use bh_uploads::reads::NamedUpload;
use bh_uploads::{abort, begin, complete};
use sqlite::Alter;
use std::alloc::Global;

/// The document names the parts; all but the last have at least the minimum size.
pub fn complete_upload<'a, S: Alter, P: Shelf>(
    connection: &mut Connection<S, P>,
    alloc: Global,
    asked: &Asked<'a>,
    object: &'a ObjectName,
    upload: Option<UploadId>,
    document: &[u8],
) -> Result<Response, StepError<Rejection>>
    requires working { Works S.Store P.Shelf connection.old }
    requires early { IsClean S.Store P.Shelf connection.old → asked.now.at ≤ latest_of (tables S.Store P.Shelf connection.old) }
    ensures { CarriesOut S.Store P.Shelf response_view asked.now.tenant.now
        (λ s. responded (plainly
        (finish_upload asked.now.limits asked.now.at object.now.bucket object.now.key upload document.now s)))
        connection.old connection.new result }
{
    let named = read_complete(alloc, document)?;
    let limits = asked.limits;
    let upload = NamedUpload {
        tenant: asked.tenant,
        bucket: &object.bucket,
        key: &object.key,
        upload,
    };
    let completed = complete::complete_upload(
        connection,
        alloc,
        &upload,
        asked.at,
        &named,
        limits.min_part,
    );
    told(alloc, completed)
}

fn list_parts<S: Alter, P: Shelf>(
    connection: &mut Connection<S, P>,
    alloc: Global,
    tenant: &TenantName,
    object: &ObjectName,
    upload: Option<UploadId>,
    page: PartPage,
) -> Result<Response, StepError<Rejection>>
    requires { Works S.Store P.Shelf connection.old }
    ensures { CarriesOut S.Store P.Shelf response_view tenant.now
        (λ s. responded (plainly (listings.list_parts object.now.bucket object.now.key upload page.size page.after s)))
        connection.old connection.new result }
{
    let upload = NamedUpload {
        tenant,
        bucket: &object.bucket,
        key: &object.key,
        upload,
    };
    let asked = PartsAsked {
        max: page.size,
        after: page.after,
    };
    told(alloc, parts::list_parts(connection, alloc, &upload, asked))
}

/// Carries out an operation on a multipart upload, without a document or a part's bytes.
pub fn operate_upload<S: Alter, P: Shelf>(
    connection: &mut Connection<S, P>,
    alloc: Global,
    asked: &Asked<'_>,
    operation: &UploadOperation,
) -> Result<Response, StepError<Rejection>>
    requires working { Works S.Store P.Shelf connection.old }
    requires early { IsClean S.Store P.Shelf connection.old → asked.now.at ≤ latest_of (tables S.Store P.Shelf connection.old) }
    ensures { CarriesOut S.Store P.Shelf response_view asked.now.tenant.now (λ s. responded (upload_operated asked.now.at operation.now s))
        connection.old connection.new result }
{
    let tenant = asked.tenant;
    match operation {
        UploadOperation::CreateMultipartUpload(object) => {
            let upload = NewUpload {
                tenant,
                bucket: &object.bucket,
                key: &object.key,
                at: asked.at,
            };
            told(alloc, begin::begin_upload(connection, alloc, &upload))
        }
        UploadOperation::ListParts {
            object,
            upload,
            page,
        } => { list_parts(connection, alloc, tenant, object, *upload, *page) }
        UploadOperation::AbortMultipartUpload { object, upload } => {
            let upload = NamedUpload {
                tenant,
                bucket: &object.bucket,
                key: &object.key,
                upload: *upload,
            };
            told(alloc, abort::abort_upload(connection, alloc, &upload))
        }
    }
}
