//! Groups of users.

use std::fs::{File, Files};
use std::io::ErrorKind;
use std::{fs, io};

const GROUPS: &str = "/etc/group";

/// The number of a group: of its name in `/etc/group`, or as it is written.
///
/// Linux, group(5)
pub(crate) fn group_number<F: Files<File = File> + AllocGlobal>(
    files: &F,
    name: &str,
) -> io::Result<u32> {
    let number = match name.parse::<u32>() {
        Ok(number) => Some(number),
        Err(_) => {
            let bytes = fs::read(files, GROUPS)?;
            number_in(bytes.as_slice(), name)
        }
    };
    match number {
        // That number would leave the group as it is.
        Some(u32::MAX) | None => Err(io::Error::new(ErrorKind::NotFound, "no such group")),
        Some(number) => Ok(number),
    }
}

/// The number of a group in the lines of that file, if it has one of this name.
fn number_in(bytes: &[u8], name: &str) -> Option<u32> {
    for line in str::from_utf8(bytes).ok()?.lines() {
        let mut fields = line.split(':');
        if fields.next() == Some(name) {
            return fields.nth(1)?.parse().ok();
        }
    }
    None
}
