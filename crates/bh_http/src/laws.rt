//! Facts about the definitions, each as the contract of a function that does nothing.
ghost use Rattle.bh_http.specs.Refused.{ReadingRefusals};

/// Bytes are refused as a request only with BadRequest, NotImplemented, MissingContentLength,
/// EntityTooLarge or IncompleteBody.
pub fn reading_refusals()
    ensures { ReadingRefusals }
{}
