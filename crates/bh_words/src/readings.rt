//! Each subcommand's line, from its values.
ghost use Rattle.bh_event.specs.Given.{Gives};
ghost use Rattle.bh_words.specs.Lines.{command_line};
ghost use Rattle.bh_words.specs.Readings as spec;

use crate::given::{
    Typed, clock, digest, door, leap, limits, place, serving, text, text_if_given, tuning,
};
use crate::lines::Line;
use crate::options::OptionName;
use crate::subcommands::Subcommand;
use bh_event::given::{GivenError, needed};
use bh_event::name::OrderName;
use bh_event::order::order_by;
use clap::ArgMatches;
use std::alloc::Global;

/// The line of a subcommand, by its name and values.
pub(crate) fn line_in(alloc: Global, name: &str, given: &ArgMatches<'_>) -> Result<Line, GivenError>
    ensures { Gives command_line result (spec.line_in (name.now, spec.rows_in given.now)) }
{
    let subcommand = needed(Subcommand::named(name))?;
    line_of(alloc, subcommand, given)
}

fn line_of(
    alloc: Global,
    subcommand: Subcommand,
    given: &ArgMatches<'_>,
) -> Result<Line, GivenError>
    ensures { Gives command_line result (spec.line_at subcommand (spec.rows_in given.now)) }
{
    match subcommand {
        Subcommand::Script => script(given),
        Subcommand::Init => init(alloc, given),
        Subcommand::Order(name) => ask(alloc, given, name),
        Subcommand::Check => check(alloc, given),
        Subcommand::Export => export(alloc, given),
        Subcommand::Import => import(alloc, given),
        Subcommand::Serve => serve(alloc, given),
        Subcommand::Tell => tell(alloc, given),
    }
}

fn script(given: &ArgMatches<'_>) -> Result<Line, GivenError>
    ensures { Gives command_line result (spec.script (spec.rows_in given.now)) }
{
    let limits = needed(limits(given))?;
    let tuning = needed(tuning(given))?;
    let digest = needed(digest(given))?;
    Ok(Line::Script {
        limits,
        tuning,
        digest,
    })
}

fn init(alloc: Global, given: &ArgMatches<'_>) -> Result<Line, GivenError>
    ensures { Gives command_line result (spec.init (spec.rows_in given.now)) }
{
    let file = text(alloc, given, OptionName::File)?;
    let limits = needed(limits(given))?;
    let digest = needed(digest(given))?;
    Ok(Line::Init {
        file,
        limits,
        digest,
    })
}

/// An order, with where it is carried out and by which clock.
fn ask(alloc: Global, given: &ArgMatches<'_>, name: OrderName) -> Result<Line, GivenError>
    ensures { Gives command_line result (spec.ask name (spec.rows_in given.now)) }
{
    let order = order_by(alloc, name, &Typed(given))?;
    Ok(Line::Ask {
        place: place(alloc, given)?,
        clock: clock(given),
        order,
    })
}

fn check(alloc: Global, given: &ArgMatches<'_>) -> Result<Line, GivenError>
    ensures { Gives command_line result (spec.check (spec.rows_in given.now)) }
{
    let file = text(alloc, given, OptionName::File)?;
    Ok(Line::Check { file })
}

fn export(alloc: Global, given: &ArgMatches<'_>) -> Result<Line, GivenError>
    ensures { Gives command_line result (spec.export (spec.rows_in given.now)) }
{
    let file = text(alloc, given, OptionName::File)?;
    let tenant = text(alloc, given, OptionName::Tenant)?;
    let to = text(alloc, given, OptionName::To)?;
    Ok(Line::Export { file, tenant, to })
}

fn import(alloc: Global, given: &ArgMatches<'_>) -> Result<Line, GivenError>
    ensures { Gives command_line result (spec.import_ (spec.rows_in given.now)) }
{
    let file = text(alloc, given, OptionName::File)?;
    let from = text(alloc, given, OptionName::From)?;
    let leap = leap(given);
    Ok(Line::Import {
        file,
        given: from,
        leap,
    })
}

fn serve(alloc: Global, given: &ArgMatches<'_>) -> Result<Line, GivenError>
    ensures { Gives command_line result (spec.serve (spec.rows_in given.now)) }
{
    let file = text(alloc, given, OptionName::File)?;
    let leap = leap(given);
    let tuning = needed(tuning(given))?;
    let serving = serving(alloc, given)?;
    Ok(Line::Serve {
        file,
        leap,
        tuning,
        given: serving,
    })
}

fn tell(alloc: Global, given: &ArgMatches<'_>) -> Result<Line, GivenError>
    ensures { Gives command_line result (spec.tell (spec.rows_in given.now)) }
{
    let door = door(alloc, given, OptionName::Port, OptionName::Socket)?;
    let secret_file = text_if_given(alloc, given, OptionName::SecretFile)?;
    let order = text(alloc, given, OptionName::Order)?;
    Ok(Line::Tell {
        door,
        secret_file,
        order,
    })
}
