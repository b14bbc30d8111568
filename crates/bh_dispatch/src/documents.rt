//! The operations that read the document in their request.
ghost use Rattle.std.specs.Prelude.{◌≡◌, ◌≤◌, None};
ghost use Rattle.std.specs.Result.{result_map_both};
ghost use Rattle.bh_http.specs.Bodies.{Gives};
ghost use Rattle.bh_machine.specs.Machine.{document_operated};
ghost use Rattle.bh_model.specs.State.{Octets};
ghost use Rattle.bh_view.specs.View.{latest_of};
ghost use Rattle.bh_http.specs.Answers.{response_view};
ghost use Rattle.bh_host.specs.Offers.{responded};
ghost use Rattle.bh_base.specs.Connections.{IsClean, tables};
ghost use Rattle.bh_schema.specs.Working.{Works};
ghost use Rattle.bh_dispatch.specs.Documents.{TakenAs};
ghost use Rattle.bh_dispatch.specs.Operating.{CarriesOut, OperatesOn};

use crate::answers::{told, told_with_details};
use crate::asked::Asked;
use crate::uploads::complete_upload;
use bh_base::connection::Connection;
use bh_docs::read::DOCUMENT_END;
use bh_docs::{read_lifecycle, read_retention, read_versioning};
use bh_http::body::{Body, collect};
use bh_http::response::Response;
use bh_objects::bodies::refused_whole;
use bh_objects::{buckets, retention};
use bh_operation::operation::DocumentOperation;
use bh_shelf::shelf::Shelf;
use bh_storage::error::{Outcome, StepError, Trouble};
use bh_types::refusal::Refusal;
use bh_types::rejection::Rejection;
use bh_uploads::lifecycle;
use sqlite::Alter;
use std::alloc::Global;

/// A request's document, read whole. If it is longer than the maximum, it is read without being
/// stored, and then refused with MalformedJson.
fn take_document<B: Body>(alloc: Global, body: &mut B) -> Result<Vec<u8>, StepError<Refusal>>
    requires going { (B.coming body.old).broken ≡ None }
    ensures takes { (given : Octets) × Gives (B.coming body.old) (B.coming body.new) given
        × TakenAs given (B.coming body.new) (result_map_both (λ document. document.items) (λ error. error) result) }
{
    if body.due() > DOCUMENT_END {
        return Err(refused_whole(body, StepError::Refused(Refusal::MalformedJson)));
    }
    match collect(alloc, body) {
        Ok(document) => Ok(document),
        Err(error) => Err(StepError::Failed(Trouble::from(error))),
    }
}

/// Carries out an operation with its document.
fn carry_out_document<S: Alter, P: Shelf>(
    connection: &mut Connection<S, P>,
    alloc: Global,
    asked: &Asked<'_>,
    operation: &DocumentOperation,
    document: &[u8],
) -> Result<Response, StepError<Rejection>>
    requires working { Works S.Store P.Shelf connection.old }
    requires early { IsClean S.Store P.Shelf connection.old → asked.now.at ≤ latest_of (tables S.Store P.Shelf connection.old) }
    ensures { CarriesOut S.Store P.Shelf response_view asked.now.tenant.now
        (λ s. responded (document_operated asked.now.limits asked.now.at document.now operation.now s))
        connection.old connection.new result }
{
    let tenant = asked.tenant;
    match operation {
        DocumentOperation::PutBucketVersioning(bucket) => {
            let state = read_versioning(alloc, document)?;
            told(
                alloc,
                buckets::set_versioning(connection, tenant, bucket, state),
            )
        }
        DocumentOperation::PutLifecycle(bucket) => {
            let days = read_lifecycle(alloc, document)?;
            told(
                alloc,
                lifecycle::set_lifecycle(connection, tenant, bucket, days),
            )
        }
        DocumentOperation::CompleteMultipartUpload { object, upload } => {
            complete_upload(connection, alloc, asked, object, *upload, document)
        }
        DocumentOperation::PutRetention { object, version } => {
            let until = read_retention(alloc, document)?;
            let (bucket, key) = (&object.bucket, &object.key);
            let set = retention::set_retention(
                connection, tenant, asked.at, bucket, key, *version, until,
            );
            told_with_details(alloc, set)
        }
    }
}

/// Carries out an operation whose body is a document, after that was received. Fails with
/// MalformedJson if it is longer than `DOCUMENT_END`.
pub fn operate_document<S: Alter, P: Shelf, B: Body>(
    connection: &mut Connection<S, P>,
    alloc: Global,
    asked: &Asked<'_>,
    operation: &DocumentOperation,
    body: &mut B,
) -> Result<Outcome<Response, Rejection>, StepError<Rejection>>
    requires working { Works S.Store P.Shelf connection.old }
    requires early { IsClean S.Store P.Shelf connection.old → asked.now.at ≤ latest_of (tables S.Store P.Shelf connection.old) }
    requires going { (B.coming body.old).broken ≡ None }
    ensures { OperatesOn S.Store P.Shelf response_view asked.now.tenant.now
        (λ document s. responded (document_operated asked.now.limits asked.now.at document operation.now s))
        (B.coming body.old) (B.coming body.new) connection.old connection.new result }
{
    let document = take_document(alloc, body)?;
    let response = carry_out_document(connection, alloc, asked, operation, &document)?;
    Ok(Outcome::Done(response))
}
