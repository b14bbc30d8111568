//! The task of each command line.

ghost use Rattle.std.specs.Prelude.{◌≡◌, true, Ok};
ghost use Rattle.bh_task.specs.Tasks as spec;
ghost use Rattle.bh_task.specs.declared.places.Environment.{Environment};

use crate::line_task::{
    Door, FileAt, HostTask, LineTask, Maintenance, OperatorGiven, ServeTask, Starts, Told,
};
use crate::misfit::Misfit;
use crate::places::{Environment, Place, operators_at, place_of};
use bh_event::order::{HostOrder, Order};
use bh_types::limits::Tuning;
use bh_words::{ClockGiven, ClockTyped, DoorGiven, DoorsGiven, Line, PlaceGiven, ServeGiven};
use sqlite_disk::Start;

/// Work on a file's host.
fn on_host<S: Start, T: Start, U: Start>(
    path: String,
    starts: Starts<S, T, U>,
    clock: ClockGiven,
    asked: HostTask,
) -> LineTask<S, T, U>
    ensures { result ≡ spec.on_host starts path clock asked }
{
    LineTask::OnHost {
        file: FileAt {
            path,
            start: starts.host,
        },
        tuning: Tuning::default(),
        clock,
        asked,
    }
}

/// Whether nothing is given of a clock.
fn is_free(clock: ClockTyped) -> bool
    ensures { result ≡ spec.is_free clock }
{
    clock.at.is_none() && clock.days.is_none() && !clock.force
}

/// The task of an order at its place.
fn ordered_at<S: Start, T: Start, U: Start>(
    place: Place,
    starts: Starts<S, T, U>,
    clock: ClockTyped,
    order: HostOrder,
) -> Result<LineTask<S, T, U>, Misfit>
    ensures { result ≡ spec.ordered_at starts clock order place }
{
    match place {
        Place::File(path) => {
            let given = ClockGiven {
                at: clock.at,
                leap: clock.leap(),
            };
            Ok(on_host(path, starts, given, HostTask::Order(order)))
        }
        Place::Server { .. } if !is_free(clock) => Err(Misfit::NoClock),
        Place::Server { door, secret_file } => Ok(LineTask::Tell {
            door,
            secret_file,
            told: Told::Order(Order::Host(order)),
        }),
    }
}

/// The task of a backup at its place.
fn backed_up_at<S: Start, T: Start, U: Start>(
    place: Place,
    starts: Starts<S, T, U>,
    to: String,
) -> LineTask<S, T, U>
    ensures { result ≡ spec.backed_up_at starts to place }
{
    match place {
        Place::File(path) => LineTask::Maintain(Maintenance::Backup {
            of: at(path, starts.host),
            to: at(to, starts.other),
        }),
        Place::Server { door, secret_file } => LineTask::Tell {
            door,
            secret_file,
            told: Told::Order(Order::Backup { to }),
        },
    }
}

/// The task of an order that a server alone carries out.
fn served_at<S: Start, T: Start, U: Start>(server: OperatorGiven, order: Order) -> LineTask<S, T, U>
    ensures { result ≡ spec.served_at server order }
{
    LineTask::Tell {
        door: server.door,
        secret_file: server.secret_file,
        told: Told::Order(order),
    }
}

/// The task of an operator's order.
fn order_task_of<S: Start, T: Start, U: Start>(
    place: PlaceGiven,
    clock: ClockTyped,
    order: Order,
    environment: Environment,
    starts: Starts<S, T, U>,
) -> Result<LineTask<S, T, U>, Misfit>
    ensures { result ≡ spec.order_task_of starts place clock environment order }
{
    match order {
        Order::Host(order) => ordered_at(place_of(place, environment)?, starts, clock, order),
        Order::Backup { to } => Ok(backed_up_at(place_of(place, environment)?, starts, to)),
        Order::Stop | Order::Server(_) => {
            let server = operators_at(place.door, place.secret_file, environment)?;
            Ok(served_at(server, order))
        }
    }
}

fn at<S: Start>(path: String, start: S) -> FileAt<S>
    ensures { result ≡ record { path = path; start = start } }
{
    FileAt { path, start }
}

/// The task of a line on a file whose host isn't being served.
fn maintenance_of<S: Start, T: Start, U: Start>(
    line: Line,
    starts: Starts<S, T, U>,
) -> LineTask<S, T, U>
    requires { spec.is_maintenance line ≡ true }
    ensures { (environment : Environment) → Ok result ≡ spec.task_of starts environment line }
{
    let Starts { host, other, made } = starts;
    LineTask::Maintain(match line {
        Line::Check { file } => Maintenance::Check {
            file: at(file, host),
        },
        Line::Export { file, tenant, to } => Maintenance::Export {
            of: at(file, host),
            tenant,
            to: at(to, other),
            made,
        },
        Line::Import { file, given, leap } => Maintenance::Import {
            to: at(file, host),
            from: at(given, other),
            leap,
        },
        _ => unreachable!(),
    })
}

/// The door of a port or a socket, if one of both is given.
fn door_of(given: DoorGiven) -> Result<Door, Misfit>
    ensures { result ≡ spec.door_of given }
{
    match (given.port, given.socket) {
        (Some(port), None) => Ok(Door::Port(port)),
        (None, Some(path)) => Ok(Door::Socket(path)),
        (None, None) => Err(Misfit::NoDoor),
        (Some(_), Some(_)) => Err(Misfit::TwoDoors),
    }
}

/// The group of a socket's users, if one is given.
fn group_of(door: &Door, given: Option<String>) -> Result<Option<String>, Misfit>
    ensures { result ≡ spec.group_of door.now given }
{
    match (door, given) {
        (Door::Port(_), Some(_)) => Err(Misfit::NoSocket),
        (Door::Port(_), None) => Ok(None),
        (Door::Socket(_), given) => Ok(given),
    }
}

/// The operators' door and secret, if a door is given.
fn operators_of(
    given: DoorGiven,
    secret_file: Option<String>,
) -> Result<Option<OperatorGiven>, Misfit>
    ensures { result ≡ spec.operators_of given secret_file }
{
    let door = match (given.port, given.socket) {
        (Some(port), None) => Door::Port(port),
        (None, Some(path)) => Door::Socket(path),
        (None, None) if secret_file.is_some() => return Err(Misfit::NoOperatorDoor),
        (None, None) => return Ok(None),
        (Some(_), Some(_)) => return Err(Misfit::TwoOperatorDoors),
    };
    Ok(Some(OperatorGiven { door, secret_file }))
}

/// How many bytes that nobody needs may stay: only a server with a door for operators sweeps by itself.
fn garbage_of(operator: &Option<OperatorGiven>, given: Option<u64>) -> Result<Option<u64>, Misfit>
    ensures { result ≡ spec.garbage_of operator.now given }
{
    match (operator, given) {
        (None, Some(_)) => Err(Misfit::NoSweeps),
        (None, None) => Ok(None),
        (Some(_), given) => Ok(given),
    }
}

/// How a host is to be served, if the doors that are given fit together.
fn serving_of(given: ServeGiven) -> Result<ServeTask, Misfit>
    ensures { result ≡ spec.serving_of given }
{
    let DoorsGiven {
        clients,
        socket_group,
        operators,
        operator_secret_file,
    } = given.doors;
    let door = door_of(clients)?;
    let socket_group = group_of(&door, socket_group)?;
    let operator = operators_of(operators, operator_secret_file)?;
    let keep_garbage = garbage_of(&operator, given.keep_garbage)?;
    Ok(ServeTask {
        door,
        socket_group,
        operator,
        count: given.count,
        timeout: given.timeout,
        is_logged: given.log,
        connections: given.connections,
        spool: given.spool,
        clock_step: given.clock_step,
        keep_garbage,
    })
}

/// The task of a line that serves a host, or tells a server an order.
fn server_task_of<S: Start, T: Start, U: Start>(
    line: Line,
    starts: Starts<S, T, U>,
) -> Result<LineTask<S, T, U>, Misfit>
    requires { spec.is_of_server line ≡ true }
    ensures { (environment : Environment) → result ≡ spec.task_of starts environment line }
{
    match line {
        Line::Serve {
            file,
            leap,
            tuning,
            given,
        } => Ok(LineTask::OnHost {
            file: at(file, starts.host),
            tuning,
            clock: ClockGiven { at: None, leap },
            asked: HostTask::Serve(serving_of(given)?),
        }),
        Line::Tell {
            door,
            secret_file,
            order,
        } => Ok(LineTask::Tell {
            door: door_of(door)?,
            secret_file,
            told: Told::Line(order),
        }),
        _ => unreachable!(),
    }
}

/// What a command line asks for in an environment, with what is supposed of its files. Fails if
/// options don't fit together.
pub fn task_of<S: Start, T: Start, U: Start>(
    line: Line,
    environment: Environment,
    starts: Starts<S, T, U>,
) -> Result<LineTask<S, T, U>, Misfit>
    ensures { result ≡ spec.task_of starts environment line }
{
    match line {
        Line::Script {
            limits,
            tuning,
            digest,
        } => Ok(LineTask::Script {
            limits,
            tuning,
            digest,
        }),
        Line::Init {
            file,
            limits,
            digest,
        } => Ok(LineTask::Init {
            file: at(file, starts.host),
            limits,
            digest,
        }),
        Line::Check { .. } | Line::Export { .. } | Line::Import { .. } => {
            Ok(maintenance_of(line, starts))
        }
        Line::Serve { .. } | Line::Tell { .. } => server_task_of(line, starts),
        Line::Ask {
            place,
            clock,
            order,
        } => order_task_of(place, clock, order, environment, starts),
    }
}
