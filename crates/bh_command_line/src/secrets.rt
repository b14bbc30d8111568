//! The operators' secret, in its own file.

use crate::input::secret_in;
use bh_maintenance::fault::{Fault, SecretFault};
use bh_types::names::Secret;
use std::fs;
use std::os::unix::fs::PermissionsExt;

/// The maximum size of such a file in bytes.
const MOST: u64 = 4096;

/// The secret in a file's first line. Fails if anyone but the owner can read or write the file.
pub(crate) fn operator_secret(rt: &HostRuntime, path: &str) -> Result<Secret, Fault> {
    match secret_at(rt, path) {
        Ok(secret) => Ok(secret),
        Err(reason) => Err(Fault::secret(rt.alloc(), path, reason)),
    }
}

fn secret_at(rt: &HostRuntime, path: &str) -> Result<Secret, SecretFault> {
    let found = fs::metadata(rt, path)?;
    if found.permissions().mode() & 0o077 != 0 {
        return Err(SecretFault::Shared);
    }
    if found.len() > MOST {
        return Err(SecretFault::NoSecret);
    }
    let bytes = fs::read(rt, path)?;
    let line = secret_in(rt.alloc(), bytes.as_slice())?;
    match Secret::read(rt.alloc(), line.as_str())? {
        Some(secret) => Ok(secret),
        None => Err(SecretFault::NoSecret),
    }
}
