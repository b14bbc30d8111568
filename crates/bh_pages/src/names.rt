//! The names under which keys are grouped.

ghost use Rattle.std.specs.Prelude.{◌≡◌, ◌≤◌, true, length, take, option_map, IfSome};
ghost use Rattle.bh_model.specs.Pages.{begins, rolled};

use memchr::memmem;

/// The length of a key's grouped name under a prefix, if the delimiter occurs after the prefix.
pub fn name_end(prefix: &[u8], delimiter: &[u8], key: &[u8]) -> Option<usize>
    ensures name { begins prefix.now key.now ≡ true
        → option_map (λ n. take n key.now) result ≡ rolled prefix.now delimiter.now key.now }
    ensures within { IfSome result (λ n. n ≤ length key.now) }
{
    if delimiter.is_empty() {
        return None;
    }
    let Some(rest) = key.get(prefix.len()..) else {
        return None;
    };
    match memmem::find(rest, delimiter) {
        None => None,
        Some(at) => Some(prefix.len() + at + delimiter.len()),
    }
}
