//! Facts about the definitions, each as the contract of a function that does nothing.
ghost use Rattle.bh_operation.specs.Refused.{OperationRefusals};

/// An operation is refused only with AccessDenied, InvalidUri, InvalidBucketName, KeyTooLong,
/// InvalidArgument, NotImplemented or MethodNotAllowed.
pub fn operation_refusals()
    ensures { OperationRefusals }
{}
