ghost use Rattle.std.specs.Prelude.{◌≡◌};
ghost use Rattle.bh_operation.specs.Methods as spec;

/// A request's method (RFC 9110, section 9). Methods are case-sensitive.
#[derive(Clone, Copy)]
pub enum Method {
    Get,
    Head,
    Put,
    Post,
    Delete,
    /// A method without operations.
    Other,
}

/// The method of a name.
pub fn method_of(name: &[u8]) -> Method
    ensures { result ≡ spec.method_of name.now }
{
    if name == b"GET".as_slice() {
        Method::Get
    } else if name == b"HEAD".as_slice() {
        Method::Head
    } else if name == b"PUT".as_slice() {
        Method::Put
    } else if name == b"POST".as_slice() {
        Method::Post
    } else if name == b"DELETE".as_slice() {
        Method::Delete
    } else {
        Method::Other
    }
}
