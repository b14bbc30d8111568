//! The time since the machine was started.

use libc::clock_gettime;
use libc::types::timespec;
use std::io;
use std::io::ErrorKind;

/// Linux's clock that counts from the start of the machine, and also while that sleeps.
///
/// Linux, clock_gettime(2)
const CLOCK_BOOTTIME: i32 = 7;

/// How many seconds ago the machine was started.
pub(crate) fn uptime() -> io::Result<u64> {
    let mut time = timespec {
        tv_sec: 0,
        tv_nsec: 0,
    };
    if clock_gettime(CLOCK_BOOTTIME, &mut time) != 0 {
        return Err(io::Error::from_raw_os_error(os::errno()));
    }
    match u64::try_from(time.tv_sec) {
        Ok(seconds) => Ok(seconds),
        Err(_) => Err(io::Error::from(ErrorKind::InvalidData)),
    }
}
