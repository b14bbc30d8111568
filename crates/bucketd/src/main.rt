//! bucketd: an S3-style object store for many tenants in one file.
#![tactic(auto)]

use bh_command_line::{Failure, carry_out, environment_of};
use bh_maintenance::printed::Printed;
use std::io::Write;
use std::process::ExitCode;
use std::{env, io};

fn end(rt: &impl Print, printed: &Printed) -> io::Result<ExitCode> {
    io::writer(rt).write_all(printed.text.as_slice())?;
    Ok(ExitCode::from(printed.status))
}

/// Prints the error of an invalid command line, and ends with status 2.
fn end_misread(rt: &impl Print, failure: &Failure) -> io::Result<ExitCode> {
    print!(rt; "{failure}")?;
    Ok(ExitCode::from(2))
}

/// Prints the cause on standard error, and ends with status 1.
fn end_fault(rt: &(impl Print + Eprint), failure: &Failure) -> io::Result<ExitCode> {
    println!(rt; "fault")?;
    eprintln!(rt; "bucketd: {failure}")?;
    Ok(ExitCode::from(1))
}

fn main(rt: HostRuntime) -> io::Result<ExitCode> {
    let words: Vec<String> = env::args(&rt)?.collect(rt.alloc())?;
    match carry_out(&rt, environment_of(&rt), words.as_slice()) {
        Ok(printed) => end(&rt, &printed),
        Err(version) if version.is_version() => {
            print!(rt; "{version}")?;
            Ok(ExitCode::SUCCESS)
        }
        Err(failure) if failure.is_in_words() => end_misread(&rt, &failure),
        Err(failure) => end_fault(&rt, &failure),
    }
}
