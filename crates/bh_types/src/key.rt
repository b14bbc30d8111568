use crate::bytes::has_length;
use crate::text::{Text, TextRule};

/// An object's key: 1 to 1,024 bytes of UTF-8 (Amazon S3 User Guide, "Naming Amazon S3 objects").
pub type ObjectKey = Text<ObjectKeyRule>;

/// The rule for objects' keys.
#[derive(Clone, Drop)]
pub struct ObjectKeyRule;

impl TextRule for ObjectKeyRule {
    ghost use Rattle.bh_types.specs.Names.{is_object_key};

    ghost takes = { is_object_key };

    fn takes(text: &[u8]) -> bool {
        has_length(1, 1024, text)
    }
}
