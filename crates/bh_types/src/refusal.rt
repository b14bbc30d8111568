ghost use Rattle.std.specs.Prelude.{◌≡◌};
ghost use Rattle.bh_types.specs.Refusals.{number_of, status_of, code_of, OneNumberEach};

/// The reason of a refusal.
///
/// The codes of 1 to 31 answer requests, and most have their names in the Amazon S3 API Reference.
/// Those of 41 to 50 answer operators' commands and are never sent over HTTP.
#[derive(Clone, Copy, Debug, PartialEq, Eq)]
pub enum Refusal {
    /// The bytes can't be parsed as a request head, or the head's framing is invalid.
    BadRequest,
    /// The request needs a feature that this host doesn't have.
    NotImplemented,
    /// A `PUT` or `POST` without `Content-Length`.
    MissingContentLength,
    /// The announced body is longer than the host's limit.
    EntityTooLarge,
    /// The credentials are missing, wrong or another tenant's.
    AccessDenied,
    /// No access key has this id.
    InvalidAccessKeyId,
    /// The target has no route, or can't be decoded to text.
    InvalidUri,
    /// The text is not a bucket name.
    InvalidBucketName,
    /// The key is longer than 1,024 bytes.
    KeyTooLong,
    /// A parameter, a header field or a number in a document is out of range or in a wrong form.
    InvalidArgument,
    /// The document has a wrong shape.
    MalformedJson,
    /// The tenant has no bucket of this name.
    NoSuchBucket,
    /// The key has no current version.
    NoSuchKey,
    /// The key has no version of this id.
    NoSuchVersion,
    /// No live upload of this bucket and key has this id.
    NoSuchUpload,
    /// The target doesn't support this method.
    MethodNotAllowed,
    /// The tenant has this bucket already.
    BucketAlreadyOwnedByYou,
    /// The bucket has versions, markers or live uploads.
    BucketNotEmpty,
    /// The bucket is locked, so its versioning can't be suspended.
    InvalidBucketState,
    /// The bucket has no lifecycle rule.
    NoSuchLifecycleConfiguration,
    /// A named part doesn't exist, or has another checksum.
    InvalidPart,
    /// The numbers of the named parts do not ascend.
    InvalidPartOrder,
    /// A part other than the last is smaller than the minimum.
    EntityTooSmall,
    /// The change would raise the tenant's use above its quota.
    QuotaExceeded,
    /// The range has none of the object's bytes.
    InvalidRange,
    /// The bytes' checksum isn't the one in the request.
    BadDigest,
    /// The body has fewer bytes than were announced.
    IncompleteBody,
    /// The request isn't valid for its target.
    InvalidRequest,
    /// One of the tenant's counters is exhausted.
    CounterExhausted,
    /// The clock's reading is after the last valid one.
    ClockOutOfRange,
    /// Memory or the store failed; nothing was changed.
    ServiceUnavailable,
    /// A tenant has this name already.
    TenantExists,
    /// No tenant has this name.
    NoSuchTenant,
    /// The tenant has an access key of this name already.
    KeyExists,
    /// The tenant has no access key of this name.
    NoSuchKeyName,
    /// The text is not a name, or not a secret.
    InvalidName,
    /// The quota is above 2^60 bytes.
    InvalidQuota,
    /// There is no host, or a new one was to be created in a file that isn't empty.
    NotAHostFile,
    /// Memory or the store failed under an operator's command; nothing was changed.
    Unavailable,
    /// The tenant has a bucket, and the command doesn't say that its buckets go too.
    TenantNotEmpty,
    /// A version of the tenant has a retention date that isn't over.
    TenantRetained,
}

impl Refusal {
    /// The refusal's own number: 1 to 31 for requests, 41 to 50 for operators' commands.
    pub fn number(self) -> u16
        ensures { result ≡ number_of self }
    {
        match self {
            Refusal::BadRequest => 1,
            Refusal::NotImplemented => 2,
            Refusal::MissingContentLength => 3,
            Refusal::EntityTooLarge => 4,
            Refusal::AccessDenied => 5,
            Refusal::InvalidAccessKeyId => 6,
            Refusal::InvalidUri => 7,
            Refusal::InvalidBucketName => 8,
            Refusal::KeyTooLong => 9,
            Refusal::InvalidArgument => 10,
            Refusal::MalformedJson => 11,
            Refusal::NoSuchBucket => 12,
            Refusal::NoSuchKey => 13,
            Refusal::NoSuchVersion => 14,
            Refusal::NoSuchUpload => 15,
            Refusal::MethodNotAllowed => 16,
            Refusal::BucketAlreadyOwnedByYou => 17,
            Refusal::BucketNotEmpty => 18,
            Refusal::InvalidBucketState => 19,
            Refusal::NoSuchLifecycleConfiguration => 20,
            Refusal::InvalidPart => 21,
            Refusal::InvalidPartOrder => 22,
            Refusal::EntityTooSmall => 23,
            Refusal::QuotaExceeded => 24,
            Refusal::InvalidRange => 25,
            Refusal::BadDigest => 26,
            Refusal::IncompleteBody => 27,
            Refusal::InvalidRequest => 28,
            Refusal::CounterExhausted => 29,
            Refusal::ClockOutOfRange => 30,
            Refusal::ServiceUnavailable => 31,
            Refusal::TenantExists => 41,
            Refusal::NoSuchTenant => 42,
            Refusal::KeyExists => 43,
            Refusal::NoSuchKeyName => 44,
            Refusal::InvalidName => 45,
            Refusal::InvalidQuota => 46,
            Refusal::NotAHostFile => 47,
            Refusal::Unavailable => 48,
            Refusal::TenantNotEmpty => 49,
            Refusal::TenantRetained => 50,
        }
    }

    /// The status code of the response (RFC 9110, section 15). An operator's command is answered
    /// without HTTP: those refusals have the status that fits their meaning.
    pub fn status(self) -> u16
        ensures { result ≡ status_of self }
    {
        match self {
            Refusal::BadRequest => 400,
            Refusal::NotImplemented => 501,
            Refusal::MissingContentLength => 411,
            Refusal::EntityTooLarge => 400,
            Refusal::AccessDenied => 403,
            Refusal::InvalidAccessKeyId => 403,
            Refusal::InvalidUri => 400,
            Refusal::InvalidBucketName => 400,
            Refusal::KeyTooLong => 400,
            Refusal::InvalidArgument => 400,
            Refusal::MalformedJson => 400,
            Refusal::NoSuchBucket => 404,
            Refusal::NoSuchKey => 404,
            Refusal::NoSuchVersion => 404,
            Refusal::NoSuchUpload => 404,
            Refusal::MethodNotAllowed => 405,
            Refusal::BucketAlreadyOwnedByYou => 409,
            Refusal::BucketNotEmpty => 409,
            Refusal::InvalidBucketState => 409,
            Refusal::NoSuchLifecycleConfiguration => 404,
            Refusal::InvalidPart => 400,
            Refusal::InvalidPartOrder => 400,
            Refusal::EntityTooSmall => 400,
            Refusal::QuotaExceeded => 403,
            Refusal::InvalidRange => 416,
            Refusal::BadDigest => 400,
            Refusal::IncompleteBody => 400,
            Refusal::InvalidRequest => 400,
            Refusal::CounterExhausted => 500,
            Refusal::ClockOutOfRange => 500,
            Refusal::ServiceUnavailable => 503,
            Refusal::TenantExists => 409,
            Refusal::NoSuchTenant => 404,
            Refusal::KeyExists => 409,
            Refusal::NoSuchKeyName => 404,
            Refusal::InvalidName => 400,
            Refusal::InvalidQuota => 400,
            Refusal::NotAHostFile => 409,
            Refusal::Unavailable => 503,
            Refusal::TenantNotEmpty => 409,
            Refusal::TenantRetained => 403,
        }
    }

    /// The refusal's code, as in error documents and in the field `x-refusal`.
    pub fn code(self) -> &'static str
        ensures { result.now ≡ code_of self }
    {
        match self {
            Refusal::BadRequest => "BadRequest",
            Refusal::NotImplemented => "NotImplemented",
            Refusal::MissingContentLength => "MissingContentLength",
            Refusal::EntityTooLarge => "EntityTooLarge",
            Refusal::AccessDenied => "AccessDenied",
            Refusal::InvalidAccessKeyId => "InvalidAccessKeyId",
            Refusal::InvalidUri => "InvalidURI",
            Refusal::InvalidBucketName => "InvalidBucketName",
            Refusal::KeyTooLong => "KeyTooLongError",
            Refusal::InvalidArgument => "InvalidArgument",
            Refusal::MalformedJson => "MalformedJSON",
            Refusal::NoSuchBucket => "NoSuchBucket",
            Refusal::NoSuchKey => "NoSuchKey",
            Refusal::NoSuchVersion => "NoSuchVersion",
            Refusal::NoSuchUpload => "NoSuchUpload",
            Refusal::MethodNotAllowed => "MethodNotAllowed",
            Refusal::BucketAlreadyOwnedByYou => "BucketAlreadyOwnedByYou",
            Refusal::BucketNotEmpty => "BucketNotEmpty",
            Refusal::InvalidBucketState => "InvalidBucketState",
            Refusal::NoSuchLifecycleConfiguration => "NoSuchLifecycleConfiguration",
            Refusal::InvalidPart => "InvalidPart",
            Refusal::InvalidPartOrder => "InvalidPartOrder",
            Refusal::EntityTooSmall => "EntityTooSmall",
            Refusal::QuotaExceeded => "QuotaExceeded",
            Refusal::InvalidRange => "InvalidRange",
            Refusal::BadDigest => "BadDigest",
            Refusal::IncompleteBody => "IncompleteBody",
            Refusal::InvalidRequest => "InvalidRequest",
            Refusal::CounterExhausted => "CounterExhausted",
            Refusal::ClockOutOfRange => "ClockOutOfRange",
            Refusal::ServiceUnavailable => "ServiceUnavailable",
            Refusal::TenantExists => "TenantExists",
            Refusal::NoSuchTenant => "NoSuchTenant",
            Refusal::KeyExists => "KeyExists",
            Refusal::NoSuchKeyName => "NoSuchKeyName",
            Refusal::InvalidName => "InvalidName",
            Refusal::InvalidQuota => "InvalidQuota",
            Refusal::NotAHostFile => "NotAHostFile",
            Refusal::Unavailable => "Unavailable",
            Refusal::TenantNotEmpty => "TenantNotEmpty",
            Refusal::TenantRetained => "TenantRetained",
        }
    }
}

/// No two refusals share a number.
pub fn one_number_each()
    ensures { OneNumberEach }
{}
