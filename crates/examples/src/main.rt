//! Runs stored examples and compares their results with the expected ones.
#![tactic(auto)]

mod ample;
mod blocks;
mod breaks;
mod connections;
mod digest_runs;
mod digesters;
mod disks;
mod dump;
mod ends;
mod joined;
mod reopened;
mod retried;
mod series;
mod served;
mod stops;
mod table;

use std::process::ExitCode;
use std::rt::Runtime;
use std::{env, io};

const USAGE: &str = "usage: examples WORD..

  tables NAME..     compares each row of tables/NAME.txt: a call, its input and what it is to give
  any-digest NAME..  compares the answers to scripts/NAME.in of hosts of SHA-256, of SipHash,
      of a constant digest and of one with two values
  connections NAME..  compares the answers to scripts/NAME.in with scripts/NAME.out: the operator's commands come first, then
                    the requests, over connections in memory, cut as the lines of scripts/NAME.cuts say, if it is there
  stops NAME..      stops the log, and then the database file, of a host in memory at each call of scripts/NAME.in, and looks whether
                    what is left is opened as it stood before an event or after it
  reopened NAME..   stops the machine of a host in files in memory after each event of scripts/NAME.in, opens its files again, and
                    looks whether the host is as it was
  breaks NAME..     breaks the connection of each request of scripts/NAME.in at each byte that is read, and at each that goes out
  ample NAME..      draws 500 events from the lines of events/NAME.txt, applies them, and serves them: they are answered alike
  retried           answers the script of standard input, asking an event that found no memory once more
  help              prints this

Tables, scripts and events lie below the folder in which it runs.
";

/// The kind of names among the arguments.
#[derive(Clone, Copy)]
enum Kind {
    Table,
    AnyDigest,
    Connections,
    Stops,
    Reopened,
    Breaks,
    Ample,
}

fn check(rt: &(impl Runtime + AllocGlobal), kind: Kind, name: &str) -> io::Result<bool> {
    match kind {
        Kind::Table => table::check_table(rt, name),
        Kind::AnyDigest => digest_runs::check(rt, name),
        Kind::Connections => connections::check(rt, name),
        Kind::Stops => stops::check(rt, name),
        Kind::Reopened => reopened::check(rt, name),
        Kind::Breaks => breaks::check(rt, name),
        Kind::Ample => ample::check(rt, name),
    }
}

/// Runs what the arguments name, one after another, and returns whether all results were as
/// expected.
fn run(rt: &(impl Runtime + AllocGlobal), words: &[String]) -> io::Result<bool> {
    let mut kind = Kind::Table;
    let mut is_well = true;
    for word in words {
        match word.as_str() {
            "tables" => kind = Kind::Table,
            "any-digest" => kind = Kind::AnyDigest,
            "connections" => kind = Kind::Connections,
            "stops" => kind = Kind::Stops,
            "reopened" => kind = Kind::Reopened,
            "breaks" => kind = Kind::Breaks,
            "ample" => kind = Kind::Ample,
            "help" => print!(rt; "{USAGE}")?,
            "retried" => is_well = retried::retry(rt)? && is_well,
            name => is_well = check(rt, kind, name)? && is_well,
        }
    }
    Ok(is_well)
}

fn words_of(rt: &(impl Runtime + AllocGlobal)) -> io::Result<Vec<String>> {
    let mut words = Vec::new(rt.alloc());
    for word in env::args(rt)?.skip(1) {
        words.push(word)?;
    }
    Ok(words)
}

fn main(rt: HostRuntime) -> io::Result<ExitCode> {
    let words = words_of(&rt)?;
    if words.is_empty() {
        print!(rt; "{USAGE}")?;
        return Ok(ExitCode::from(2));
    }
    let is_well = run(&rt, words.as_slice())?;
    Ok(ExitCode::from(u8::from(!is_well)))
}
