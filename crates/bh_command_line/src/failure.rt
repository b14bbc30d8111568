use bh_maintenance::fault::Fault;
use bh_task::Misfit;
use bh_words::LineFault;
use std::fmt;

/// Why a command line wasn't carried out, refusals aside. Its `Display` is the text for the user.
#[derive(Drop)]
pub enum Failure {
    /// The words tell no command line, or ask for the help or the version.
    Words(LineFault),
    /// Options don't fit together.
    Misfit(Misfit),
    /// The subcommand failed.
    Fault(Fault),
}

impl Failure {
    /// Whether the text is the program's name and version, as the words asked.
    pub fn is_version(&self) -> bool {
        match self {
            Failure::Words(fault) => fault.is_version(),
            Failure::Misfit(_) | Failure::Fault(_) => false,
        }
    }

    /// Whether the command line is invalid, by its words or its options.
    pub fn is_in_words(&self) -> bool {
        match self {
            Failure::Words(_) | Failure::Misfit(_) => true,
            Failure::Fault(fault) => fault.is_in_words(),
        }
    }
}

impl From<LineFault> for Failure {
    fn from(fault: LineFault) -> Failure {
        if fault.is_memory() {
            return Failure::Fault(Fault::Memory);
        }
        Failure::Words(fault)
    }
}

impl From<Misfit> for Failure {
    fn from(misfit: Misfit) -> Failure {
        Failure::Misfit(misfit)
    }
}

impl From<Fault> for Failure {
    fn from(fault: Fault) -> Failure {
        Failure::Fault(fault)
    }
}

impl fmt::Display for Failure {
    fn fmt<W: fmt::Write>(&self, f: &mut fmt::Formatter<W>) -> fmt::Result {
        match self {
            Failure::Words(fault) => fault.fmt(f),
            Failure::Misfit(misfit) => misfit.fmt(f),
            Failure::Fault(fault) => fault.fmt(f),
        }
    }
}
