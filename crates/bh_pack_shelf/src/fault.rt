//! Why a pack that a row names is refused, beyond what its folder tells, and why packs can't be copied.

use bh_pack_files::Fault;
use bh_packs::trouble::Trouble;
use std::alloc::AllocError;
use std::io;
use std::io::ErrorKind;

/// The fault of a pack, from what was told of it.
pub(crate) fn fault_of(rt: &HostRuntime, host: &str, pack: usize, trouble: Trouble) -> Fault {
    match trouble {
        Trouble::Memory => Fault::Memory,
        Trouble::File(error) => about(rt, host, pack, error),
        Trouble::Taken => refused(rt, host, pack, ErrorKind::AlreadyExists),
        Trouble::Short | Trouble::Outside | Trouble::Damaged => {
            refused(rt, host, pack, ErrorKind::UnexpectedEof)
        }
        Trouble::Full | Trouble::TooLong => refused(rt, host, pack, ErrorKind::InvalidInput),
        Trouble::Missing | Trouble::Unusable | Trouble::Held => {
            refused(rt, host, pack, ErrorKind::Other)
        }
    }
}

/// A pack is refused for this reason.
pub(crate) fn refused(rt: &HostRuntime, host: &str, pack: usize, why: ErrorKind) -> Fault {
    about(rt, host, pack, why.into())
}

/// An error about a pack, with the number that its row has.
fn about(rt: &HostRuntime, host: &str, pack: usize, error: io::Error) -> Fault {
    match name_of(rt, host, pack) {
        Ok(name) => Fault::System(name, error),
        Err(_) => Fault::Memory,
    }
}

fn name_of(rt: &HostRuntime, host: &str, pack: usize) -> Result<String, AllocError> {
    format!(in rt.alloc(); "{host}.packs: pack {pack}")
}

/// The trouble of a copy, from what was told of its folder.
pub(crate) fn trouble_of(fault: Fault) -> Trouble {
    match fault {
        Fault::Memory => Trouble::Memory,
        Fault::Cut(_) => Trouble::Short,
        other => Trouble::File(other.into_error()),
    }
}
