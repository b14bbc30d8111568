use std::fmt;

/// A check's progress.
#[derive(Clone, Copy, PartialEq, Eq)]
pub enum Stage {
    /// The rows of this many tables are read.
    Reading(usize),
    /// All rows, with this many references among them, are checked one by one, and against sums
    /// over the others.
    Rows(usize),
    /// The bytes of this many blocks are checked.
    Blocks(usize),
}

impl fmt::Display for Stage {
    fn fmt<W: fmt::Write>(&self, f: &mut fmt::Formatter<W>) -> fmt::Result {
        match self {
            Stage::Reading(count) => write!(f, "reading {count} tables"),
            Stage::Rows(count) => write!(f, "checking rows, {count} references among them"),
            Stage::Blocks(count) => write!(f, "checking {count} blocks"),
        }
    }
}

/// Is called with a check's progress.
pub trait Watch {
    fn at(&mut self, stage: Stage);
}
