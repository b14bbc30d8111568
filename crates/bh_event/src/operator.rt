//! The order in an operator's line, after the operators' secret.
ghost use Rattle.std.specs.Prelude.{◌≡◌, IfOk, option_map};
ghost use Rattle.bh_event.specs.Operators as spec;
ghost use Rattle.bh_event.specs.Orders.{instruction_of};

use crate::line::read_order;
use crate::order::Order;
use std::alloc::{AllocError, Global};

/// A line's order; `None` if it isn't an order. If there is a secret, the line begins with it and a
/// space. Then comes what [`read_order`] parses.
pub fn order_of_line(
    alloc: Global,
    secret: Option<&[u8]>,
    line: &[u8],
) -> Result<Option<Order>, AllocError>
    ensures { IfOk result (λ order. option_map instruction_of order
        ≡ spec.order_of_line (option_map (λ s. s.now) secret.entry) line.now) }
{
    match admitted(secret, line) {
        Some(object) => read_order(alloc, object),
        None => Ok(None),
    }
}

/// The text after the secret, if there is one.
fn admitted<'a>(secret: Option<&[u8]>, line: &'a [u8]) -> Option<&'a [u8]>
    ensures { option_map (λ s. s.now) result ≡ spec.admitted (option_map (λ s. s.now) secret.entry) line.now }
{
    match secret {
        Some(secret) => after_word(secret, line),
        None => Some(line),
    }
}

/// The text after a word and a space.
fn after_word<'a>(word: &[u8], line: &'a [u8]) -> Option<&'a [u8]>
    ensures { option_map (λ s. s.now) result ≡ spec.after_word word.now line.now }
{
    after(b" ", after(word, line)?)
}

/// The text after another one at the front of a line.
fn after<'a>(text: &[u8], line: &'a [u8]) -> Option<&'a [u8]>
    ensures { option_map (λ s. s.now) result ≡ spec.after text.now line.now }
{
    line.strip_prefix(text)
}
