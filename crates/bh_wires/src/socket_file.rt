//! A Unix socket that listens, with its file.

use libc::fchmod;
use libc::net::listen;
use mio::net::{UnixListener, UnixStream};
use std::fs::{File, Files, Metadata, Permissions};
use std::io::ErrorKind;
use std::net::Net;
use std::os::fd::{AsFd, AsRawFd, OwnedFd};
use std::os::unix::fs::{FileTypeExt, MetadataExt, PermissionsExt, lchown};
use std::os::unix::net;
use std::os::unix::net::SocketAddr;
use std::{fs, io};

/// As many connections may wait for an accept as the system allows.
const BACKLOG: i32 = -1;

/// Only the user of this process may connect.
const OWN: u32 = 0o600;

/// The users of a group may connect too.
const GROUP: u32 = 0o660;

const TAKEN: &str = "a server listens there";

const ANOTHER: &str = "a file is there that is no socket";

/// Which file a path has, so that no other one is removed.
#[derive(Clone, Copy)]
pub(crate) struct SocketFile<'a> {
    path: &'a str,
    device: u64,
    number: u64,
}

impl<'a> SocketFile<'a> {
    fn new(path: &'a str, metadata: &Metadata) -> SocketFile<'a> {
        SocketFile {
            path,
            device: metadata.dev(),
            number: metadata.ino(),
        }
    }

    /// Removes the file, if it still stands at its path.
    pub(crate) fn remove<F: Files<File = File>>(&self, files: &F) {
        if let Ok(metadata) = fs::symlink_metadata(files, self.path) {
            if metadata.dev() == self.device && metadata.ino() == self.number {
                let _ = fs::remove_file(files, self.path);
            }
        }
    }
}

/// Listens on a Unix socket at a path, to which a group may connect if there is one. The file of a
/// socket on which nobody listens is replaced; of another kind of file, or where somebody listens,
/// nothing is changed.
pub(crate) fn listen_at<'a, N: Net + Files<File = File>>(
    net: &N,
    path: &'a str,
    group: Option<u32>,
) -> io::Result<(UnixListener, SocketFile<'a>)> {
    let address = SocketAddr::from_pathname(path)?;
    make_way(net, path)?;
    let socket = net.unix_socket()?;
    // The file is made with this mode, less what the umask takes.
    done(fchmod(socket.as_raw_fd(), OWN))?;
    net.bind_unix(socket.as_fd(), &address)?;
    let file = SocketFile::new(path, &fs::symlink_metadata(net, path)?);
    match listening(net, path, group, socket) {
        Ok(listener) => Ok((listener, file)),
        Err(error) => {
            file.remove(net);
            Err(error)
        }
    }
}

/// A socket that has its file listens from here on. Before that nobody can connect, so its group and
/// its mode are set first.
fn listening<N: Files<File = File>>(
    files: &N,
    path: &str,
    group: Option<u32>,
    socket: OwnedFd,
) -> io::Result<UnixListener> {
    let mode = match group {
        Some(_) => {
            lchown(files, path, None, group)?;
            GROUP
        }
        None => OWN,
    };
    fs::set_permissions(files, path, Permissions::from_mode(mode))?;
    done(listen(socket.as_raw_fd(), BACKLOG))?;
    let listener = net::UnixListener::from(socket);
    listener.set_nonblocking(true)?;
    Ok(UnixListener::from_std(listener))
}

/// Removes the file of a socket on which nobody listens.
fn make_way<N: Net + Files<File = File>>(net: &N, path: &str) -> io::Result<()> {
    match fs::symlink_metadata(net, path) {
        Ok(metadata) if metadata.file_type().is_socket() => {}
        Ok(_) => return Err(io::Error::new(ErrorKind::AlreadyExists, ANOTHER)),
        Err(error) if error.kind() == ErrorKind::NotFound => return Ok(()),
        Err(error) => return Err(error),
    }
    match UnixStream::connect(net, path) {
        Ok(_) => Err(io::Error::new(ErrorKind::AddrInUse, TAKEN)),
        Err(error) if error.kind() == ErrorKind::ConnectionRefused => fs::remove_file(net, path),
        // Its listener has no room for one more.
        Err(error) if error.kind() == ErrorKind::WouldBlock => Err(io::Error::new(
            ErrorKind::AddrInUse,
            TAKEN,
        )),
        Err(error) => Err(error),
    }
}

/// A system call's status as a result.
fn done(status: i32) -> io::Result<()> {
    if status < 0 {
        Err(io::Error::from_raw_os_error(os::errno()))
    } else {
        Ok(())
    }
}
