//! The operations on the rule of a bucket, as responses of a host's storage.
ghost use Rattle.bh_machine.specs.Machine.{lifecycle_operated};
ghost use Rattle.bh_http.specs.Answers.{response_view};
ghost use Rattle.bh_host.specs.Offers.{responded};
ghost use Rattle.bh_schema.specs.Working.{Works};
ghost use Rattle.bh_dispatch.specs.Operating.{CarriesOut};

use crate::answers::told;
use bh_base::connection::Connection;
use bh_http::response::Response;
use bh_operation::operation::LifecycleOperation;
use bh_shelf::shelf::Shelf;
use bh_storage::error::StepError;
use bh_types::names::TenantName;
use bh_types::rejection::Rejection;
use bh_uploads::lifecycle;
use sqlite::Alter;
use std::alloc::Global;

/// Carries out an operation on a bucket's rule, without a document.
pub fn operate_lifecycle<S: Alter, P: Shelf>(
    connection: &mut Connection<S, P>,
    alloc: Global,
    tenant: &TenantName,
    operation: &LifecycleOperation,
) -> Result<Response, StepError<Rejection>>
    requires { Works S.Store P.Shelf connection.old }
    ensures { CarriesOut S.Store P.Shelf response_view tenant.now (λ s. responded (lifecycle_operated operation.now s))
        connection.old connection.new result }
{
    match operation {
        LifecycleOperation::GetLifecycle(bucket) => {
            told(alloc, lifecycle::lifecycle(connection, tenant, bucket))
        }
        LifecycleOperation::DeleteLifecycle(bucket) => {
            told(
                alloc,
                lifecycle::delete_lifecycle(connection, tenant, bucket),
            )
        }
    }
}
