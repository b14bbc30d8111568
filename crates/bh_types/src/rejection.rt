use crate::refusal::Refusal;

/// The response's details beside the refusal.
#[derive(Clone, Copy, PartialEq, Eq)]
pub enum Detail {
    /// No details.
    Nothing,
    /// The newest entry of the key is a delete marker.
    CurrentMarker,
    /// The given id is that of a delete marker.
    NamedMarker,
    /// The given id, in an operation on a date, is that of a delete marker. The response has only the
    /// methods that a marker permits.
    UndatedMarker,
    /// The object has this many bytes, and the requested range has none of them.
    ObjectSize(u64),
}

/// A refusal with its response's details.
#[derive(Clone, Copy, PartialEq, Eq)]
pub struct Rejection {
    pub refusal: Refusal,
    pub detail: Detail,
}

impl From<Refusal> for Rejection {
    ghost use Rattle.std.specs.Prelude.{◌≡◌};
    ghost use Rattle.bh_types.specs.Rejections.{plain};

    ghost from_gives = { λ refusal rejection. rejection ≡ plain refusal };

    fn from(refusal: Refusal) -> Rejection {
        Rejection {
            refusal,
            detail: Detail::Nothing,
        }
    }
}
