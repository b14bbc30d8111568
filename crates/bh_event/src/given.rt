//! The values of an order's fields, on a command line or in a line of JSON.
ghost use Rattle.std.specs.Prelude.{◌≡◌, option_map};
ghost use Rattle.std.specs.String.{string_bytes};
ghost use Rattle.bh_event.specs.Given.{Given, Gives};

use crate::name::Field;
use std::alloc::{AllocError, Global};

/// Why an order has no value.
#[derive(Clone, Copy)]
pub enum GivenError {
    /// The value is missing or out of its range.
    NotGiven,
    /// Memory ran out.
    OutOfMemory,
}

impl From<AllocError> for GivenError {
    ghost use Rattle.std.specs.Prelude.{◌≡◌};
    ghost use Rattle.bh_event.specs.declared.given.GivenError.TheVariants.{OutOfMemory};

    ghost from_gives = { λ _ e. e ≡ OutOfMemory };

    fn from(_error: AllocError) -> GivenError {
        GivenError::OutOfMemory
    }
}

/// Where the values of an order's fields are found.
pub trait Fields {
    /// The values.
    ghost given: { Self → Given };

    /// The text of a field.
    fn text(&self, field: Field) -> Option<&str>
        ensures { option_map (λ s. s.now) result ≡ (given self.now).text field };

    /// The number of a field.
    fn number(&self, field: Field) -> Option<u64>
        ensures { result ≡ (given self.now).number field };

    /// Whether a field is chosen.
    fn choice(&self, field: Field) -> Option<bool>
        ensures { result ≡ (given self.now).choice field };
}

/// The value, or `NotGiven` if there is none.
pub fn needed<T>(value: Option<T>) -> Result<T, GivenError>
    ensures { Gives (λ x. x) result value }
{
    match value {
        Some(value) => Ok(value),
        None => Err(GivenError::NotGiven),
    }
}

/// The text of a field, which is needed.
pub(crate) fn text<F: Fields>(alloc: Global, given: &F, field: Field) -> Result<String, GivenError>
    ensures { Gives string_bytes result ((F.given given.now).text field) }
{
    match given.text(field) {
        Some(text) => Ok(String::from_str(alloc, text)?),
        None => Err(GivenError::NotGiven),
    }
}
