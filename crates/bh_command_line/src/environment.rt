//! What the environment gives for options that aren't typed.

ghost use Rattle.std.specs.Prelude.{◌≡◌, if◌then◌else◌};
ghost use Rattle.bh_command_line.specs.Packs as spec;

use bh_maintenance::fault::Fault;
use bh_packs::place::Bounds;
use bh_task::Environment;
use std::env::VarError;
use std::io::ErrorKind;
use std::{env, io};

/// Said of a variable whose value can't be a text.
const FOREIGN: &str = "a variable that begins with BUCKETD_ isn't UTF-8";

/// A host has at most so many packs, removed ones included.
const PACKS: usize = 1_048_576;

/// A pack has at most so many bytes, 64 MiB: it goes only once nothing in it is named. `bh_kept` empties one that is
/// three quarters of this long, once less than half of this is named.
const PACK_BYTES: usize = 67_108_864;

/// Said of a word that doesn't tell whether new bytes may go to packs.
const NEITHER: &str = "BUCKETD_PACKS is neither yes nor no";

/// What the environment gives for an order. An empty variable counts as none.
pub fn environment_of(rt: &HostRuntime) -> Result<Environment, Fault> {
    Ok(Environment {
        file: variable(rt, "BUCKETD_FILE")?,
        operator_port: variable(rt, "BUCKETD_OPERATOR_PORT")?,
        secret_file: variable(rt, "BUCKETD_OPERATOR_SECRET_FILE")?,
    })
}

fn variable(rt: &HostRuntime, name: &str) -> Result<Option<String>, Fault> {
    match env::var(rt, name) {
        Ok(value) if value.is_empty() => Ok(None),
        Ok(value) => Ok(Some(value)),
        Err(VarError::NotPresent) => Ok(None),
        Err(VarError::NotUnicode) => {
            Err(Fault::from(io::Error::new(ErrorKind::InvalidData, FOREIGN)))
        }
        Err(VarError::OutOfMemory) => Err(Fault::Memory),
    }
}

/// How much packs take of new bytes: nothing, if `BUCKETD_PACKS` is `no`. What they have is read in any case.
pub(crate) fn pack_bounds(rt: &HostRuntime) -> Result<Bounds, Fault> {
    let Some(word) = variable(rt, "BUCKETD_PACKS")? else {
        return Ok(bounds_if(true));
    };
    match is_asked(word.as_str()) {
        Some(asked) => Ok(bounds_if(asked)),
        None => Err(Fault::from(io::Error::new(ErrorKind::InvalidInput, NEITHER))),
    }
}

/// Whether new bytes may go to packs, if the word tells it.
fn is_asked(word: &str) -> Option<bool>
    ensures { result ≡ spec.is_asked word.now }
{
    if word == "yes" {
        Some(true)
    } else if word == "no" {
        Some(false)
    } else {
        None
    }
}

/// The bounds of packs that may take new bytes, or may take none. There may be as many packs in either case.
fn bounds_if(asked: bool) -> Bounds
    ensures packs { result.packs ≡ 1048576 }
    ensures bytes { result.bytes ≡ (if asked then 67108864 else 0) }
{
    Bounds {
        packs: PACKS,
        bytes: if asked { PACK_BYTES } else { 0 },
    }
}
