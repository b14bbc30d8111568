//! Sends an operator's line to a running server.

ghost use Rattle.std.specs.Prelude.{IfOk};
ghost use Rattle.std.specs.String.{string_bytes};
ghost use Rattle.bh_event.specs.Orders.{instruction_of};
ghost use Rattle.bh_command_line.specs.Carrying.{IsOrderRead, IsTextFor};

use crate::input::typed_text;
use crate::secrets::operator_secret;
use crate::works::order_in;
use bh_event::order::Order;
use bh_maintenance::fault::Fault;
use bh_maintenance::printed::Printed;
use bh_task::{Door, Told};
use bh_telling::order_text;
use std::alloc::{AllocError, Global};
use std::io;
use std::io::{Read, Write};
use std::net::{Ipv4Addr, TcpStream};
use std::os::unix::net::UnixStream;

/// Sends an order to an operators' door, after a file's secret if one is named, and prints the
/// reply. It waits for the reply without a time limit.
pub fn tell(
    rt: &HostRuntime,
    door: &Door,
    secret_file: Option<String>,
    told: Told,
) -> Result<Printed, Fault> {
    let order = text_of(rt, told)?;
    let line = match secret_file {
        Some(path) => {
            let secret = operator_secret(rt, path.as_str())?;
            line_of(rt.alloc(), Some(secret.as_str()), order.as_str())?
        }
        None => line_of(rt.alloc(), None, order.as_str())?,
    };
    let reply = exchange(rt, door, line.as_slice())?;
    match reply.as_slice().strip_suffix(b"\n") {
        Some(reply) => Ok(Printed::told(rt.alloc(), reply)?),
        None => Err(Fault::NoReply),
    }
}

/// The text of what a server is told.
fn text_of(rt: &HostRuntime, told: Told) -> Result<String, Fault>
    ensures { IfOk result (λ text. IsTextFor told (string_bytes text)) }
{
    match told {
        Told::Line(line) => typed_text(rt, line),
        Told::Order(order) => {
            let order = order_read(rt, order)?;
            Ok(order_text(rt.alloc(), &order)?)
        }
    }
}

/// An order, once its secret was read.
fn order_read(rt: &HostRuntime, order: Order) -> Result<Order, Fault>
    ensures { IfOk result (λ read. IsOrderRead (instruction_of order) (instruction_of read)) }
{
    match order {
        Order::Host(order) => Ok(Order::Host(order_in(rt, order)?)),
        Order::Backup { .. } | Order::Stop | Order::Server(_) => Ok(order),
    }
}

/// The line of an order. A line feed within it separates words of JSON, and is sent as a space.
fn line_of(alloc: Global, secret: Option<&str>, order: &str) -> Result<Vec<u8>, AllocError> {
    let mut line = Vec::new(alloc);
    if let Some(secret) = secret {
        line.extend_from_slice(secret.as_bytes())?;
        line.push(b' ')?;
    }
    for byte in order.as_bytes() {
        line.push(if *byte == b'\n' { b' ' } else { *byte })?;
    }
    line.push(b'\n')?;
    Ok(line)
}

/// Sends a line to the server at a door, and reads the reply.
fn exchange(rt: &HostRuntime, door: &Door, line: &[u8]) -> io::Result<Vec<u8>> {
    match door {
        Door::Port(port) => {
            let stream = TcpStream::connect(rt, (Ipv4Addr::LOCALHOST, *port))?;
            exchange_over(rt.alloc(), stream, line)
        }
        Door::Socket(path) => {
            let stream = UnixStream::connect(rt, path.as_str())?;
            exchange_over(rt.alloc(), stream, line)
        }
    }
}

/// Sends a line, and reads the reply. No size bounds it: a list of tenants has all of them.
fn exchange_over<S: Read + Write + Drop>(
    alloc: Global,
    mut stream: S,
    line: &[u8],
) -> io::Result<Vec<u8>> {
    stream.write_all(line)?;
    let mut reply = Vec::new(alloc);
    stream.read_to_end(&mut reply)?;
    Ok(reply)
}
