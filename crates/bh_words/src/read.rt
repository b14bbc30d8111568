ghost use Rattle.std.specs.Prelude.{◌≡◌, [], IfOk, IfErr, Some, map};
ghost use Rattle.std.specs.String.{string_bytes};
ghost use Rattle.clap.specs.Words.{FailsBy, HasKind, fault_of, subcommand_of, subcommand_rows_of};
ghost use Rattle.bh_event.specs.Given.{Gives};
ghost use Rattle.bh_words.specs.Commands.{the_command};
ghost use Rattle.bh_words.specs.Lines.{command_line};
ghost use Rattle.bh_words.specs.Readings as spec;

use crate::command::the_command;
use crate::fault::LineFault;
use crate::lines::Line;
use crate::readings::line_in;
use crate::sizes::sized;
use bh_event::given::GivenError;
use clap::{ArgMatches, Error};
use std::alloc::{AllocError, Global};

/// Parses a command line. The first word is the program's name, as in `env::args`.
///
/// The error is `clap`'s first one: an unknown subcommand or option, a repeated option, a missing
/// one, an extra word, an invalid number. If the words ask for help, or there are none, it is the
/// help.
pub fn read_words(alloc: Global, words: &[String]) -> Result<Line, LineFault>
    ensures told { IfOk result (λ line. (spec.faults_of (map string_bytes words.now) ≡ [])
        × (spec.told_by (map string_bytes words.now) ≡ Some (command_line line))) }
    ensures refused { IfErr result (λ fault.
        HasKind (spec.faults_of (map string_bytes words.now)) fault.error) }
{
    let plain = sized(alloc, words)?;
    let matches = matches_of(alloc, plain.as_slice())?;
    match line_of(alloc, &matches) {
        Ok(line) => Ok(line),
        Err(GivenError::NotGiven) => unreachable!(),
        Err(GivenError::OutOfMemory) => Err(LineFault::from(AllocError)),
    }
}

fn matches_of<'a>(alloc: Global, words: &'a [String]) -> Result<ArgMatches<'a>, Error>
    ensures rows { IfOk result (λ m.
        subcommand_rows_of m ≡ subcommand_of the_command (map string_bytes words.now)) }
    ensures kinds { FailsBy (fault_of the_command (map string_bytes words.now)) result }
{
    let command = the_command(alloc)?;
    command.try_get_matches_from(words)
}

// The line of the matched subcommand.
#[tactic(auto, using(crate::proofs::Rows::rows_met))]
fn line_of(alloc: Global, matches: &ArgMatches<'_>) -> Result<Line, GivenError>
    ensures { Gives command_line result (spec.line_of (subcommand_rows_of matches.now)) }
{
    match matches.subcommand() {
        Some((name, given)) => line_in(alloc, name, given),
        None => Err(GivenError::NotGiven),
    }
}
