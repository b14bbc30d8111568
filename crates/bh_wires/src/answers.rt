//! What a server is asked about itself, and answers.

ghost use Rattle.std.specs.Prelude.{◌≡◌, IfOk, option_map};
ghost use Rattle.std.specs.String.{string_bytes};
ghost use Rattle.bh_wires.specs.Answers as spec;

use bh_event::operator::order_of_line;
use bh_event::order::{Asked, Order};
use bh_link::line::first_line;
use std::alloc::{AllocError, Global};

/// What all requests are refused by while the clock isn't taken.
const REFUSED: &str = "30 ClockOutOfRange\n";

/// What the first line of an operator's bytes asks of the server, if that is its order. It may lack
/// its line feed.
pub(crate) fn asked_of(
    alloc: Global,
    secret: Option<&[u8]>,
    bytes: &[u8],
) -> Result<Option<Asked>, AllocError>
    ensures { IfOk result (λ asked. asked ≡ spec.asked_of (option_map (λ s. s.now) secret.entry) bytes.now) }
{
    match order_of_line(alloc, secret, first_line(bytes))? {
        Some(Order::Server(asked)) => Ok(Some(asked)),
        Some(_) | None => Ok(None),
    }
}

/// `health ok`, or the refusal of the clock while it is too far ahead.
pub(crate) fn health_text(alloc: Global, is_away: bool) -> Result<String, AllocError>
    ensures { IfOk result (λ text. string_bytes text ≡ spec.health_text is_away) }
{
    if is_away {
        String::from_str(alloc, REFUSED)
    } else {
        String::from_str(alloc, "health ok\n")
    }
}

/// The clock's reading that was taken as right, in seconds since 1970. Where none was, the refusal of
/// the clock.
pub(crate) fn accepted_text(alloc: Global, reading: Option<u64>) -> Result<String, AllocError>
    ensures { IfOk result (λ text. string_bytes text ≡ spec.accepted_text reading) }
{
    match reading {
        Some(reading) => format!(in alloc; "accepted {reading}\n"),
        None => String::from_str(alloc, REFUSED),
    }
}
