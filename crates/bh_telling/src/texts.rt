ghost use Rattle.std.specs.Prelude.{◌≡◌, IfOk, Some};
ghost use Rattle.std.specs.String.{string_bytes};
ghost use Rattle.bh_event.specs.Lines.{ordered_by};
ghost use Rattle.bh_event.specs.Orders.{instruction_of};

use crate::objects::order_object;
use bh_event::order::Order;
use std::alloc::{AllocError, Global};

/// The text of an order: a server that reads it reads just that order. It has no line feed.
pub fn order_text(alloc: Global, order: &Order) -> Result<String, AllocError>
    ensures { IfOk result (λ text. ordered_by (string_bytes text) ≡ Some (instruction_of order.now)) }
{
    let object = order_object(alloc, order)?;
    object.to_string(alloc)
}
