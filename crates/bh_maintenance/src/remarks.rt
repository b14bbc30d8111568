//! Messages to the operator on standard error, beside the printed line.

use bh_check::watch::Stage;
use bh_open::NoHost;
use jiff::Timestamp;
use sqlite::Error;
use sqlite_trees::error::StoreError;
use std::fmt;

/// The seconds of a day.
pub const DAY: u64 = 86_400;

/// A second since 1970, printed in UTC as in RFC 3339 (section 5.6).
#[derive(Clone, Copy)]
struct Second(u64);

impl fmt::Display for Second {
    fn fmt<W: fmt::Write>(&self, f: &mut fmt::Formatter<W>) -> fmt::Result {
        let Ok(second) = i64::try_from(self.0) else {
            return write!(f, "second {}", self.0);
        };
        match Timestamp::from_second(second) {
            Ok(timestamp) => write!(f, "{timestamp}"),
            Err(_) => write!(f, "second {second}"),
        }
    }
}

/// How far a clock is ahead of the last stamp, both in seconds since 1970.
#[derive(Clone, Copy)]
pub struct Ahead {
    /// The last stamp.
    pub latest: u64,
    /// The clock's reading.
    pub reading: u64,
}

impl fmt::Display for Ahead {
    fn fmt<W: fmt::Write>(&self, f: &mut fmt::Formatter<W>) -> fmt::Result {
        let days = self.reading.saturating_sub(self.latest) / DAY;
        let reading = Second(self.reading);
        let latest = Second(self.latest);
        write!(
            f,
            "the clock reads {reading}, but the host's last timestamp is {latest}: set the clock, or if it is right use --clock-leap {} or --force",
            days.saturating_add(1)
        )
    }
}

/// Writes how far an exported file's last stamp is ahead of the clock and the other host's.
fn write_stamp_leaps<W: fmt::Write>(ahead: &Ahead, f: &mut fmt::Formatter<W>) -> fmt::Result {
    let days = ahead.reading.saturating_sub(ahead.latest) / DAY;
    let stamp = Second(ahead.reading);
    let moment = Second(ahead.latest);
    write!(
        f,
        "its last timestamp is {stamp}, but the later of the clock and the host's last timestamp is {moment}: set the clock, or if the file is right use --clock-leap {} or --force",
        days.saturating_add(1)
    )
}

/// A message about a file.
#[derive(Drop)]
pub enum Remark {
    /// There is no file of this name.
    NoFile,
    /// It is empty.
    EmptyFile,
    /// It is another database, not a host's.
    NoHost(NoHost),
    /// It has a host already, and a new one was to be created.
    HasHost,
    /// It has another database.
    HasTables,
    /// Memory or the store failed.
    Trouble(Error),
    /// The clock is too far ahead.
    Leaps(Ahead),
    /// An exported file's last stamp, as a reading, is too far ahead of the later of the clock and the
    /// host's last stamp.
    StampLeaps(Ahead),
    /// The last stamp, in seconds since 1970; 0 if there is none.
    LastStamp(u64),
    /// The progress of a check.
    Checking(Stage),
    /// Its rows can't be read.
    Unread(StoreError),
    /// It has no tenant, or several.
    NotOneTenant,
    /// Its limits differ from those of the host that its tenant was to be added to.
    OtherLimits,
}

fn write_no_host<W: fmt::Write>(why: NoHost, f: &mut fmt::Formatter<W>) -> fmt::Result {
    match why {
        NoHost::NoTable => f.write_str("not a host: the database has no tables"),
        NoHost::OtherTables => f.write_str(
            "not a host: the database belongs to another program, or to another version of bucketd",
        ),
        NoHost::OtherVersion(0) => f.write_str(
            "the host has version 0, made by an earlier bucketd: download its objects with that program, and upload them to a new host",
        ),
        NoHost::OtherVersion(version) => write!(
            f,
            "the host has version {version}, made by a later bucketd"
        ),
        NoHost::OtherDigest(number) => write!(
            f,
            "the host uses block digest {number}, which only a later bucketd has"
        ),
        NoHost::NoRow => f.write_str("not a host: its table host isn't valid"),
    }
}

impl fmt::Display for Remark {
    fn fmt<W: fmt::Write>(&self, f: &mut fmt::Formatter<W>) -> fmt::Result {
        match self {
            Remark::NoFile => f.write_str("there is no such file"),
            Remark::EmptyFile => f.write_str("not a host: the file is empty"),
            Remark::NoHost(why) => write_no_host(*why, f),
            Remark::HasHost => f.write_str("the file already has a host"),
            Remark::HasTables => f.write_str("the file is another database"),
            Remark::Trouble(error) => write!(f, "{error}"),
            Remark::Leaps(ahead) => write!(f, "{ahead}"),
            Remark::StampLeaps(ahead) => write_stamp_leaps(ahead, f),
            Remark::LastStamp(0) => f.write_str("the host has no timestamp yet"),
            Remark::LastStamp(latest) => write!(
                f,
                "the host's last timestamp is {}",
                Second(*latest)
            ),
            Remark::Checking(stage) => write!(f, "{stage}"),
            Remark::Unread(error) => write!(f, "{error}"),
            Remark::NotOneTenant => f.write_str(
                "not a file that export made: it doesn't have exactly one tenant",
            ),
            Remark::OtherLimits => f.write_str(
                "its limits (min-part, max-body) differ from the host's",
            ),
        }
    }
}

/// Prints a message on standard error. If that can't be written, nothing else changes.
pub fn tell(rt: &impl Eprint, path: &str, remark: &Remark) {
    let _ = eprintln!(rt; "bucketd: {path}: {remark}");
}
