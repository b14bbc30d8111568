ghost use Rattle.std.specs.Prelude.{◌≡◌};
ghost use Rattle.bh_http.specs.Fields as spec;
ghost use Rattle.bh_http.specs.Views.{pair_of, pairs_of};

use crate::request::Field;

/// How often a request has a header field, and its value if it occurs once.
#[derive(Clone, Copy)]
pub enum Given<'a> {
    /// The field is missing.
    Missing,
    /// The field occurs once, with this value.
    Once(&'a [u8]),
    /// The field occurs twice or more.
    Repeated,
}

/// The field of a name, compared without case (RFC 9110, section 5.1).
pub fn field_named<'a>(fields: &[Field<'a>], name: &[u8]) -> Given<'a>
    ensures { spec.given_view result ≡ spec.field_named name.now (pairs_of fields.now) }
{
    let mut given = Given::Missing;
    for field in fields {
        if is_named(field, name) {
            given = match given {
                Given::Missing => Given::Once(field.value),
                _ => Given::Repeated,
            };
        }
    }
    given
}

fn is_named(field: &Field, name: &[u8]) -> bool
    ensures { result ≡ spec.is_named name.now (pair_of field.now) }
{
    field.name.eq_ignore_ascii_case(name)
}
