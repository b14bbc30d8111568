ghost use Rattle.std.specs.Prelude.{◌≡◌, ◌↔◌, IsTrue};
ghost use Rattle.clap.specs.Words.{kind_of};
ghost use Rattle.clap.specs.declared.error.kind.ErrorKind.TheVariants as kind;

use clap::Error;
use clap::error::ErrorKind;
use std::alloc::AllocError;
use std::fmt;

/// Why a command line was not parsed: an error in it, a request for help or the version, or lack of
/// memory.
///
/// Its `Display` is the text for the user, as `clap` words it.
#[derive(Drop)]
pub struct LineFault {
    pub(crate) error: Error,
}

impl LineFault {
    /// Whether the text is the program's name and version, as the command line asked.
    pub fn is_version(&self) -> bool
        ensures { IsTrue result ↔ (kind_of self.now.error ≡ kind.DisplayVersion) }
    {
        self.error.kind() == ErrorKind::DisplayVersion
    }

    /// Whether memory ran out, so that nothing is known about the command line.
    pub fn is_memory(&self) -> bool
        ensures { IsTrue result ↔ (kind_of self.now.error ≡ kind.OutOfMemory) }
    {
        self.error.kind() == ErrorKind::OutOfMemory
    }
}

impl fmt::Display for LineFault {
    fn fmt<W: fmt::Write>(&self, f: &mut fmt::Formatter<W>) -> fmt::Result {
        self.error.fmt(f)
    }
}

impl From<Error> for LineFault {
    ghost use Rattle.std.specs.Prelude.{◌≡◌};

    ghost from_gives = { λ error fault. fault.error ≡ error };

    fn from(error: Error) -> LineFault {
        LineFault { error }
    }
}

impl From<AllocError> for LineFault {
    ghost use Rattle.std.specs.Prelude.{◌≡◌};
    ghost use Rattle.clap.specs.Words.{kind_of};
    ghost use Rattle.clap.specs.declared.error.kind.ErrorKind.TheVariants.{OutOfMemory};

    ghost from_gives = { λ _ fault. kind_of fault.error ≡ OutOfMemory };

    fn from(error: AllocError) -> LineFault {
        LineFault {
            error: Error::from(error),
        }
    }
}
