ghost use Rattle.std.specs.Prelude.{◌≡◌};
ghost use Rattle.bh_http.specs.Values.{content_type_text, allow_text};

use std::fmt;

/// The type of a response's body (RFC 9110, section 8.3).
#[derive(Clone, Copy, PartialEq, Eq)]
pub enum ContentType {
    /// A JSON document: `application/json`.
    Json,
    /// An object's bytes: `application/octet-stream`.
    OctetStream,
}

impl ContentType {
    /// The media type.
    pub fn as_str(self) -> &'static str
        ensures { result.now ≡ content_type_text self }
    {
        match self {
            ContentType::Json => "application/json",
            ContentType::OctetStream => "application/octet-stream",
        }
    }
}

impl fmt::Display for ContentType {
    ghost use Rattle.std.specs.Prelude.{Some};
    ghost use Rattle.bh_http.specs.Values.{content_type_text};

    ghost output = { λ t. Some (content_type_text t) };

    fn fmt<W: fmt::Write>(&self, f: &mut fmt::Formatter<W>) -> fmt::Result {
        f.write_str(self.as_str())
    }
}

/// The range of an object that is sent, or that the requested range can't be (RFC 9110, section
/// 14.4).
#[derive(Clone, Copy, PartialEq, Eq)]
pub enum ContentRange {
    /// The bytes from `first` to `last`, both included and counted from 0, of an object of `size`
    /// bytes.
    Part { first: u64, last: u64, size: u64 },
    /// The requested range has none of the object's `size` bytes.
    Unsatisfied { size: u64 },
}

impl fmt::Display for ContentRange {
    ghost use Rattle.std.specs.Prelude.{Some};
    ghost use Rattle.bh_http.specs.Values.{content_range_text};

    ghost output = { λ r. Some (content_range_text r) };

    fn fmt<W: fmt::Write>(&self, f: &mut fmt::Formatter<W>) -> fmt::Result {
        match self {
            ContentRange::Part { first, last, size } => write!(f, "bytes {first}-{last}/{size}"),
            ContentRange::Unsatisfied { size } => write!(f, "bytes */{size}"),
        }
    }
}

/// The methods that a target supports (RFC 9110, section 10.2.1), by the kind of the target.
#[derive(Clone, Copy, PartialEq, Eq)]
pub enum Allow {
    /// The target `/`.
    Service,
    /// A bucket.
    Bucket,
    /// An object.
    Object,
    /// A delete marker, named by its id.
    Marker,
}

impl Allow {
    /// The methods, in alphabetical order.
    pub fn as_str(self) -> &'static str
        ensures { result.now ≡ allow_text self }
    {
        match self {
            Allow::Service => "GET",
            Allow::Bucket => "DELETE, GET, HEAD, PUT",
            Allow::Object => "DELETE, GET, HEAD, POST, PUT",
            Allow::Marker => "DELETE",
        }
    }
}

impl fmt::Display for Allow {
    ghost use Rattle.std.specs.Prelude.{Some};
    ghost use Rattle.bh_http.specs.Values.{allow_text};

    ghost output = { λ a. Some (allow_text a) };

    fn fmt<W: fmt::Write>(&self, f: &mut fmt::Formatter<W>) -> fmt::Result {
        f.write_str(self.as_str())
    }
}
