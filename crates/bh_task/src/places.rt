//! Where an operator's order is carried out.

ghost use Rattle.std.specs.Prelude.{◌≡◌};
ghost use Rattle.bh_task.specs.Places as spec;

use crate::line_task::{Door, OperatorGiven};
use crate::misfit::Misfit;
use bh_words::{DoorGiven, PlaceGiven, port_of};

/// What the environment gives for options that aren't typed.
#[derive(Drop)]
pub struct Environment {
    /// `BUCKETD_FILE`: the path of a host's file.
    pub file: Option<String>,
    /// `BUCKETD_OPERATOR_PORT`: the port of a server for operators.
    pub operator_port: Option<String>,
    /// `BUCKETD_OPERATOR_SECRET_FILE`: the file of the operators' secret.
    pub secret_file: Option<String>,
}

/// Where an order is carried out.
#[derive(Drop)]
pub enum Place {
    /// On the host in the file of this path.
    File(String),
    /// By the server that takes operators' lines there, after the secret in a file.
    Server {
        door: Door,
        secret_file: Option<String>,
    },
}

/// The first of two, or else the second.
fn first_of(typed: Option<String>, other: Option<String>) -> Option<String>
    ensures { result ≡ spec.first_of typed other }
{
    match typed {
        Some(typed) => Some(typed),
        None => other,
    }
}

/// The server at a door.
fn server(door: Door, typed: Option<String>, other: Option<String>) -> Place
    ensures { result ≡ spec.server door typed other }
{
    Place::Server {
        door,
        secret_file: first_of(typed, other),
    }
}

/// A server at a port of the environment.
fn server_at(port: String, typed: Option<String>, other: Option<String>) -> Result<Place, Misfit>
    ensures { result ≡ spec.server_at port typed other }
{
    match port_of(port.as_str()) {
        Some(port) => Ok(server(Door::Port(port), typed, other)),
        None => Err(Misfit::NoPort),
    }
}

/// The place that the environment names, where none is typed.
fn place_in(environment: Environment, typed: Option<String>) -> Result<Place, Misfit>
    ensures { result ≡ spec.place_in environment typed }
{
    match (environment.file, environment.operator_port) {
        (None, None) => Err(Misfit::NoPlace),
        (Some(_), Some(_)) => Err(Misfit::TwoPlaces),
        (None, Some(port)) => server_at(port, typed, environment.secret_file),
        (Some(_), None) if typed.is_some() => Err(Misfit::NoOperatorDoor),
        (Some(file), None) => Ok(Place::File(file)),
    }
}

/// The file that is typed, if no server is.
fn file_of(file: String, door: DoorGiven, secret_file: Option<String>) -> Result<Place, Misfit>
    ensures { result ≡ spec.file_of file door.port door.socket secret_file }
{
    if door.port.is_some() || door.socket.is_some() {
        return Err(Misfit::TwoPlaces);
    }
    if secret_file.is_some() {
        return Err(Misfit::NoOperatorDoor);
    }
    Ok(Place::File(file))
}

/// The server that is typed, or else the place that the environment names.
fn server_of(
    door: DoorGiven,
    typed: Option<String>,
    environment: Environment,
) -> Result<Place, Misfit>
    ensures { result ≡ spec.server_of door.port door.socket typed environment }
{
    match (door.port, door.socket) {
        (None, None) => place_in(environment, typed),
        (Some(_), Some(_)) => Err(Misfit::TwoOperatorDoors),
        (Some(port), None) => Ok(server(Door::Port(port), typed, environment.secret_file)),
        (None, Some(path)) => Ok(server(Door::Socket(path), typed, environment.secret_file)),
    }
}

/// Where an order is carried out, as it was typed, or else as the environment says.
pub(crate) fn place_of(given: PlaceGiven, environment: Environment) -> Result<Place, Misfit>
    ensures { result ≡ spec.place_of given environment }
{
    let PlaceGiven {
        file,
        door,
        secret_file,
    } = given;
    match file {
        Some(file) => file_of(file, door, secret_file),
        None => server_of(door, secret_file, environment),
    }
}

/// The door at the port that the environment names.
fn environment_door(port: Option<String>) -> Result<Door, Misfit>
    ensures { result ≡ spec.environment_door port }
{
    match port {
        Some(port) => door_at(port),
        None => Err(Misfit::NoServer),
    }
}

/// The door at a port of the environment.
fn door_at(port: String) -> Result<Door, Misfit>
    ensures { result ≡ spec.door_at port }
{
    match port_of(port.as_str()) {
        Some(port) => Ok(Door::Port(port)),
        None => Err(Misfit::NoPort),
    }
}

/// The operators' door that is typed, or else the environment's.
fn operator_door(given: DoorGiven, other: Option<String>) -> Result<Door, Misfit>
    ensures { result ≡ spec.operator_door given.port given.socket other }
{
    match (given.port, given.socket) {
        (None, None) => environment_door(other),
        (Some(_), Some(_)) => Err(Misfit::TwoOperatorDoors),
        (Some(port), None) => Ok(Door::Port(port)),
        (None, Some(path)) => Ok(Door::Socket(path)),
    }
}

/// The server that is asked of itself, as it was typed, or else as the environment says. A file of
/// the environment doesn't count.
pub(crate) fn operators_at(
    door: DoorGiven,
    typed: Option<String>,
    environment: Environment,
) -> Result<OperatorGiven, Misfit>
    ensures { result ≡ spec.operators_at door typed environment }
{
    Ok(OperatorGiven {
        door: operator_door(door, environment.operator_port)?,
        secret_file: first_of(typed, environment.secret_file),
    })
}
