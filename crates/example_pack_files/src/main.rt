//! Packs in a folder of real files.
//!
//!     example_pack_files run PATH          a folder is made, opened again, damaged and refused; then a shelf, and its copy
//!     example_pack_files write PATH        blocks are appended and synced, until it is killed
//!     example_pack_files read PATH N       the first N of them are read
//!     example_pack_files measure PATH N    N blocks are appended and synced, and read: how long it took
#![tactic(auto)]

mod blocks;
mod copy;
mod scene;
mod shelf;

use std::process::ExitCode;
use std::{env, io};

fn words_of(rt: &HostRuntime) -> io::Result<Vec<String>> {
    let mut words = Vec::new(rt.alloc());
    for word in env::args(rt)?.skip(1) {
        words.push(word)?;
    }
    Ok(words)
}

/// How many blocks a word says.
fn count_of(words: &[String]) -> usize {
    match words.get(2) {
        Some(word) => word.as_str().parse::<usize>().unwrap_or(0),
        None => 0,
    }
}

fn main(rt: HostRuntime) -> io::Result<ExitCode> {
    let words = words_of(&rt)?;
    let (Some(verb), Some(path)) = (words.get(0), words.get(1)) else {
        return Ok(ExitCode::from(2));
    };
    let count = count_of(words.as_slice());
    match verb.as_str() {
        "run" => {
            scene::run(&rt, path.as_str())?;
            shelf::run(&rt, path.as_str())?;
            copy::run(&rt, path.as_str())?;
        }
        "write" => blocks::write(&rt, path.as_str())?,
        "read" => blocks::read(&rt, path.as_str(), count)?,
        "measure" => blocks::measure(&rt, path.as_str(), count)?,
        _ => return Ok(ExitCode::from(2)),
    }
    Ok(ExitCode::SUCCESS)
}
