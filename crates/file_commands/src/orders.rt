//! The lines of orders.

ghost use Rattle.std.specs.Prelude.{◌≡◌, ◌++◌, OnOk, IfOk, string_bytes};
ghost use Rattle.file_commands.specs.Scripts.{order_line, order_lines};

use pilot_basic::BasicOrder;
use std::alloc::{AllocError, Global};

/// The line of an order at a moment.
fn line_of(alloc: Global, now: u64, order: &BasicOrder) -> Result<String, AllocError>
    ensures { IfOk result (λ line. string_bytes line ≡ order_line now order.now) }
{
    match order {
        BasicOrder::Open => format!(in alloc; "{now} open\n"),
        BasicOrder::Close => format!(in alloc; "{now} close\n"),
        BasicOrder::Duty(duty) => format!(in alloc; "{now} duty {duty}\n"),
    }
}

/// Puts a line for each order behind a text.
pub(crate) fn add_orders(
    alloc: Global,
    text: &mut String,
    now: u64,
    orders: &[BasicOrder],
) -> Result<(), AllocError>
    ensures { OnOk result (string_bytes text.new ≡ string_bytes text.old ++ order_lines now orders.now) }
{
    for order in orders {
        let line = line_of(alloc, now, order)?;
        text.push_str(line.as_str())?;
    }
    Ok(())
}
