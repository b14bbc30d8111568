//! Work on a host, once its secrets were read: before a file is opened, so that no other process
//! waits for them.

ghost use Rattle.std.specs.Prelude.{◌≡◌, IfOk, is_some};
ghost use Rattle.std.specs.String.{string_bytes};
ghost use Rattle.bh_event.specs.Events.{order_of, Ordered, message_of};
ghost use Rattle.bh_command_line.specs.Carrying.{AreServed, IsServing, IsReadAs, IsWorkFor, spool_name};

use crate::input::typed_text;
use crate::secrets::operator_secret;
use bh_commands::{OperatorServing, Serving, Work};
use bh_connection::Manner;
use bh_event::event::Command;
use bh_event::order::HostOrder;
use bh_maintenance::fault::Fault;
use bh_task::{HostTask, OperatorGiven, ServeTask};
use bh_types::names::Secret;
use std::alloc::{AllocError, Global};

/// How the names of files begin that are made while a host serves: in a directory if one is named,
/// or else beside the host's file.
fn spool_of(alloc: Global, path: &str, directory: Option<String>) -> Result<String, AllocError>
    ensures { IfOk result (λ name. string_bytes name ≡ spool_name path.now directory) }
{
    match directory {
        Some(directory) => {
            let mut name = directory;
            name.push_str("/spool")?;
            Ok(name)
        }
        None => {
            let mut name = String::from_str(alloc, path)?;
            name.push_str(".spool")?;
            Ok(name)
        }
    }
}

/// The operators' secret, if its file is named.
fn secret_at(rt: &HostRuntime, path: Option<String>) -> Result<Option<Secret>, Fault>
    ensures { IfOk result (λ secret. is_some secret ≡ is_some path) }
{
    match path {
        Some(path) => Ok(Some(operator_secret(rt, path.as_str())?)),
        None => Ok(None),
    }
}

/// The operators' door and secret.
fn operator_of(
    rt: &HostRuntime,
    given: Option<OperatorGiven>,
) -> Result<Option<OperatorServing>, Fault>
    ensures { IfOk result (AreServed given) }
{
    match given {
        Some(OperatorGiven { door, secret_file }) => {
            let secret = secret_at(rt, secret_file)?;
            Ok(Some(OperatorServing { door, secret }))
        }
        None => Ok(None),
    }
}

/// How the host of a file is served, once the operators' secret was read.
fn serving_of(rt: &HostRuntime, path: &str, asked: ServeTask) -> Result<Serving, Fault>
    ensures { IfOk result (IsServing path.now asked) }
{
    let ServeTask {
        door,
        socket_group,
        operator,
        count,
        timeout,
        is_logged,
        connections,
        spool,
        clock_step,
        keep_garbage,
    } = asked;
    let operator = operator_of(rt, operator)?;
    Ok(Serving {
        door,
        socket_group,
        operator,
        count,
        manner: Manner { timeout, is_logged },
        connections,
        file: String::from_str(rt.alloc(), path)?,
        spool: spool_of(rt.alloc(), path, spool)?,
        clock_step,
        keep_garbage,
    })
}

/// A command, once its secret was read.
fn command_in(rt: &HostRuntime, command: Command) -> Result<Command, Fault>
    ensures { IfOk result (λ read. IsReadAs (Ordered (order_of command)) (Ordered (order_of read))) }
{
    match command {
        Command::KeyAdd {
            tenant,
            name,
            secret,
        } => {
            let secret = typed_text(rt, secret)?;
            Ok(Command::KeyAdd {
                tenant,
                name,
                secret,
            })
        }
        _ => Ok(command),
    }
}

/// An order on a host, once its secret was read.
pub(crate) fn order_in(rt: &HostRuntime, order: HostOrder) -> Result<HostOrder, Fault>
    ensures { IfOk result (λ read. IsReadAs (message_of order) (message_of read)) }
{
    match order {
        HostOrder::Command(command) => Ok(HostOrder::Command(command_in(rt, command)?)),
        HostOrder::Sweep { .. } | HostOrder::Report | HostOrder::Tenants => Ok(order),
    }
}

/// The work on the host of a file, once its secrets were read.
pub(crate) fn work_of(rt: &HostRuntime, path: &str, asked: HostTask) -> Result<Work, Fault>
    ensures { IfOk result (IsWorkFor path.now asked) }
{
    match asked {
        HostTask::Order(order) => Ok(Work::Order(order_in(rt, order)?)),
        HostTask::Serve(asked) => Ok(Work::Serve(serving_of(rt, path, asked)?)),
    }
}
