//! Operations that change a bucket itself.
ghost use Rattle.std.specs.Prelude.{◌≡◌};
ghost use Rattle.bh_dispatch.specs.Changing as spec;

use bh_operation::operation::{
    BareOperation, BucketOperation, DocumentOperation, LifecycleOperation, Operation,
};

/// Whether an operation may change which buckets there are, the state of one or its rule. No
/// operation changes access keys.
pub fn changes_buckets(operation: &Operation) -> bool
    ensures { result ≡ spec.changes_buckets operation.now }
{
    match operation {
        Operation::Bare(BareOperation::Bucket(operation)) => matches!(
            operation,
            BucketOperation::CreateBucket { .. } | BucketOperation::DeleteBucket(_)
        ),
        Operation::Bare(BareOperation::Lifecycle(operation)) => {
            matches!(operation, LifecycleOperation::DeleteLifecycle(_))
        }
        Operation::ByDocument(operation) => matches!(
            operation,
            DocumentOperation::PutBucketVersioning(_) | DocumentOperation::PutLifecycle(_)
        ),
        _ => false,
    }
}
