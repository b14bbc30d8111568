use arrayvec::ArrayVec;

/// The maximum number of header fields in a request.
pub const MAX_FIELDS: usize = 64;

/// A header field (RFC 9110, section 5): its name as it was written, and its value without the
/// white space around it.
#[derive(Clone, Copy)]
pub struct Field<'a> {
    pub name: &'a [u8],
    pub value: &'a [u8],
}

impl Default for Field<'_> {
    /// The value of an unused place in a request's fields.
    fn default() -> Self {
        Field {
            name: b"",
            value: b"",
        }
    }
}

/// The header fields of a request, in their order.
pub type Fields<'a> = ArrayVec<Field<'a>, MAX_FIELDS>;

/// A request's head: the method and the target of its request line (RFC 9112, section 3), its
/// header fields in order, and the body's size in bytes by Content-Length. It borrows the bytes
/// that it was read from.
#[derive(Drop)]
pub struct Head<'a> {
    pub method: &'a [u8],
    pub target: &'a [u8],
    pub fields: Fields<'a>,
    pub body_size: u64,
}

/// A request: its head, and the body framed by Content-Length. It borrows the bytes from which it
/// was parsed.
#[derive(Drop)]
pub struct Request<'a> {
    pub head: Head<'a>,
    pub body: &'a [u8],
}
