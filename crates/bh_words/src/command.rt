//! The program's command, as it is declared to `clap`.
ghost use Rattle.std.specs.Prelude.{◌≡◌, IfOk, false};
ghost use Rattle.clap.specs.Words.{app_of, shape_of};
ghost use Rattle.clap.specs.declared.builder.command.Command.TheViews.{out-Command as fields_of};
ghost use Rattle.bh_words.specs.Commands as spec;

use crate::options::OptionName;
use crate::subcommands::Subcommand;
use bh_event::name::OrderName;
use clap::Command;
use std::alloc::{AllocError, Global};

/// The program's version.
const VERSION: &str = "0.1.0";

/// The program's command with its subcommands.
pub(crate) fn the_command<'a>(alloc: Global) -> Result<Command<'a>, AllocError>
    ensures { IfOk result (λ c. app_of c ≡ spec.the_command) }
{
    let bare = Command::new(alloc, "bucketd")
        .about("An S3-style object store for many tenants in one file")
        .version(VERSION)
        .arg_required_else_help(true)
        .subcommand_required(true);
    with_subcommands(alloc, bare, SUBCOMMANDS.as_slice())
}

fn with_subcommands<'a>(
    alloc: Global,
    bare: Command<'a>,
    subcommands: &[Subcommand],
) -> Result<Command<'a>, AllocError>
    ensures { IfOk result (λ c. app_of c ≡ spec.with_subcommands (app_of bare.entry) subcommands.now) }
{
    let mut command = bare;
    for subcommand in subcommands {
        command = command.subcommand(subcommand_command(alloc, *subcommand)?)?;
    }
    Ok(command)
}

static SUBCOMMANDS: [Subcommand; 22] = [
    Subcommand::Script,
    Subcommand::Init,
    Subcommand::Order(OrderName::TenantAdd),
    Subcommand::Order(OrderName::Quota),
    Subcommand::Order(OrderName::TenantRemove),
    Subcommand::Order(OrderName::KeyAdd),
    Subcommand::Order(OrderName::KeyRemove),
    Subcommand::Order(OrderName::Keys),
    Subcommand::Order(OrderName::Usage),
    Subcommand::Order(OrderName::Tenants),
    Subcommand::Order(OrderName::Report),
    Subcommand::Check,
    Subcommand::Order(OrderName::Sweep),
    Subcommand::Order(OrderName::Backup),
    Subcommand::Export,
    Subcommand::Import,
    Subcommand::Serve,
    Subcommand::Tell,
    Subcommand::Order(OrderName::Stop),
    Subcommand::Order(OrderName::Health),
    Subcommand::Order(OrderName::Metrics),
    Subcommand::Order(OrderName::ClockAccept),
];

fn subcommand_command<'a>(alloc: Global, subcommand: Subcommand) -> Result<Command<'a>, AllocError>
    ensures shape { IfOk result (λ c. shape_of c ≡ spec.shape (spec.word subcommand) (spec.options subcommand)) }
    ensures local { IfOk result (λ c. (fields_of c).has_globals ≡ false) }
{
    let bare = Command::new(alloc, subcommand.word()).about(subcommand.about());
    let options = subcommand.options(alloc)?;
    with_options(alloc, bare, options.as_slice())
}

fn with_options<'a>(
    alloc: Global,
    bare: Command<'a>,
    options: &[OptionName],
) -> Result<Command<'a>, AllocError>
    ensures rules { IfOk result (λ c. app_of c ≡ spec.with_options (app_of bare.entry) options.now) }
    ensures local { IfOk result (λ c. (fields_of c).has_globals ≡ (fields_of bare.entry).has_globals) }
{
    let mut command = bare;
    for option in options {
        command = command.arg(option.arg(alloc))?;
    }
    Ok(command)
}
