use std::fmt;

/// Why options don't fit together, each of which is valid. Its `Display` is the text for the user.
#[derive(Clone, Copy)]
pub enum Misfit {
    /// Neither a port nor a socket.
    NoDoor,
    /// Both a port and a socket.
    TwoDoors,
    /// Both a port and a socket for operators.
    TwoOperatorDoors,
    /// A socket's group without a socket.
    NoSocket,
    /// A file of an operators' secret without a door for operators.
    NoOperatorDoor,
    /// What starts sweeps without a door for operators: such a server has none of its own.
    NoSweeps,
    /// Neither a file nor a server.
    NoPlace,
    /// No server.
    NoServer,
    /// Both a file and a server.
    TwoPlaces,
    /// A port in the environment that is none.
    NoPort,
    /// A clock for an order that a server carries out.
    NoClock,
}

impl Misfit {
    fn text<'a>(self) -> &'a str {
        match self {
            Misfit::NoDoor => "either '--port <port>' or '--socket <socket>' is required",
            Misfit::TwoDoors => {
                "the argument '--port <port>' cannot be used with '--socket <socket>'"
            }
            Misfit::TwoOperatorDoors => {
                "the argument '--operator-port <operator-port>' cannot be used with '--operator-socket <operator-socket>'"
            }
            Misfit::NoPlace => {
                "one of '--file <file>', '--operator-port <operator-port>' and '--operator-socket <operator-socket>' is required"
            }
            Misfit::NoServer => {
                "one of '--operator-port <operator-port>' and '--operator-socket <operator-socket>' is required"
            }
            Misfit::TwoPlaces => {
                "a file (--file, BUCKETD_FILE) cannot be used with a server (--operator-port, --operator-socket, BUCKETD_OPERATOR_PORT)"
            }
            Misfit::NoPort => "BUCKETD_OPERATOR_PORT is not a port",
            Misfit::NoClock => {
                "'--at', '--clock-leap' and '--force' need '--file <file>': a server has its own clock"
            }
            Misfit::NoSocket => { "'--socket-group <socket-group>' needs '--socket <socket>'" }
            Misfit::NoOperatorDoor => {
                "'--operator-secret-file <operator-secret-file>' needs '--operator-port <operator-port>' or '--operator-socket <operator-socket>'"
            }
            Misfit::NoSweeps => {
                "'--keep-garbage <keep-garbage>' needs '--operator-port <operator-port>' or '--operator-socket <operator-socket>'"
            }
        }
    }
}

impl fmt::Display for Misfit {
    fn fmt<W: fmt::Write>(&self, f: &mut fmt::Formatter<W>) -> fmt::Result {
        let text = self.text();
        write!(f, "error: {text}\n\nFor more information, try '--help'.\n")
    }
}
