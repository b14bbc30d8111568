ghost use Rattle.std.specs.Prelude.{◌≡◌};
ghost use Rattle.std.specs.List.{list_all};
ghost use Rattle.bh_types.specs.Names as spec;

/// Whether the number of bytes is from `low` to `high`.
pub fn has_length(low: usize, high: usize, text: &[u8]) -> bool
    ensures { result ≡ spec.has_length low high text.now }
{
    low <= text.len() && text.len() <= high
}

/// Whether a byte is one of a to z, 0 to 9.
pub fn is_name_byte(b: u8) -> bool
    ensures { result ≡ spec.is_name_byte b }
{
    b.is_ascii_lowercase() || b.is_ascii_digit()
}

/// Whether each byte is one of a to z, 0 to 9.
pub fn are_name_bytes(text: &[u8]) -> bool
    ensures { result ≡ list_all spec.is_name_byte text.now }
{
    text.iter().all(|b| is_name_byte(*b))
}
