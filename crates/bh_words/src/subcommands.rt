//! The subcommands, and their options.
ghost use Rattle.std.specs.Prelude.{◌≡◌, IfOk, map};
ghost use Rattle.bh_words.specs.Commands as spec;
ghost use Rattle.bh_words.specs.Options.{option_of};

use crate::options::OptionName::{
    At, BlockSize, CacheBlocks, CacheBytes, ClockLeap, ClockStep, Connections, Count, Digest, File,
    Force, HostFile, KeepGarbage, Log, MaxBody, MinPart, OperatorPort, OperatorSecretFile,
    OperatorSocket, Order, Port, SecretFile, Socket, SocketGroup, Spool, Tenant, Timeout, To,
};
use crate::options::{OptionName, option_of};
use bh_event::name::{Field, OrderName, Reach};
use std::alloc::{AllocError, Global};

/// A subcommand of the program.
#[derive(Clone, Copy)]
pub(crate) enum Subcommand {
    Script,
    Init,
    /// An operator's order.
    Order(OrderName),
    Check,
    Export,
    Import,
    Serve,
    Tell,
}

static SCRIPT: [OptionName; 6] = [BlockSize, MinPart, MaxBody, CacheBlocks, CacheBytes, Digest];

static INIT: [OptionName; 4] = [File, MinPart, MaxBody, Digest];

static ON_HOST: [OptionName; 7] = [
    HostFile,
    OperatorPort,
    OperatorSocket,
    OperatorSecretFile,
    At,
    ClockLeap,
    Force,
];

static ON_FILES: [OptionName; 4] = [HostFile, OperatorPort, OperatorSocket, OperatorSecretFile];

static AT_SERVER: [OptionName; 3] = [OperatorPort, OperatorSocket, OperatorSecretFile];

static CHECK: [OptionName; 1] = [File];

static EXPORT: [OptionName; 3] = [File, Tenant, To];

static IMPORT: [OptionName; 4] = [File, OptionName::From, ClockLeap, Force];

static SERVE: [OptionName; 19] = [
    File,
    Port,
    Socket,
    SocketGroup,
    Count,
    Log,
    Timeout,
    Connections,
    Spool,
    ClockLeap,
    ClockStep,
    Force,
    BlockSize,
    CacheBlocks,
    CacheBytes,
    KeepGarbage,
    OperatorPort,
    OperatorSocket,
    OperatorSecretFile,
];

static TELL: [OptionName; 4] = [Port, Socket, SecretFile, Order];

impl Subcommand {
    /// The subcommand's name.
    pub(crate) fn word<'a>(self) -> &'a str
        ensures { result.now ≡ spec.word self }
    {
        match self {
            Subcommand::Script => "script",
            Subcommand::Init => "init",
            Subcommand::Order(name) => name.word(),
            Subcommand::Check => "check",
            Subcommand::Export => "export",
            Subcommand::Import => "import",
            Subcommand::Serve => "serve",
            Subcommand::Tell => "tell",
        }
    }

    /// Its description, for the help.
    pub(crate) fn about<'a>(self) -> &'a str {
        match self {
            Subcommand::Script => {
                "Applies events from standard input to a new host in memory, and prints their replies"
            }
            Subcommand::Init => "Creates a host in a file",
            Subcommand::Order(name) => name.about(),
            Subcommand::Check => "Checks that a host's file is sound",
            Subcommand::Export => "Copies a tenant to a new host in a new file",
            Subcommand::Import => "Adds an exported tenant to the host",
            Subcommand::Serve => {
                "Serves requests over HTTP on a port of 127.0.0.1 or a Unix socket"
            }
            Subcommand::Tell => {
                "Sends an operator's order to a running server, and prints the reply"
            }
        }
    }

    /// Its options, in the order of its help.
    pub(crate) fn options(self, alloc: Global) -> Result<Vec<OptionName>, AllocError>
        ensures { IfOk result (λ options. options.items ≡ spec.options self) }
    {
        match self {
            Subcommand::Script => Vec::from_slice(alloc, &SCRIPT),
            Subcommand::Init => Vec::from_slice(alloc, &INIT),
            Subcommand::Order(name) => order_options(alloc, name),
            Subcommand::Check => Vec::from_slice(alloc, &CHECK),
            Subcommand::Export => Vec::from_slice(alloc, &EXPORT),
            Subcommand::Import => Vec::from_slice(alloc, &IMPORT),
            Subcommand::Serve => Vec::from_slice(alloc, &SERVE),
            Subcommand::Tell => Vec::from_slice(alloc, &TELL),
        }
    }

    /// The subcommand with this name.
    pub(crate) fn named(name: &str) -> Option<Subcommand>
        ensures { result ≡ spec.subcommand_named name.now }
    {
        match own_named(name) {
            Some(subcommand) => Some(subcommand),
            None => OrderName::named(name).map(Subcommand::Order),
        }
    }
}

/// The subcommand with this name, if it is no order.
fn own_named(name: &str) -> Option<Subcommand>
    ensures { result ≡ spec.own_named name.now }
{
    match name {
        "script" => Some(Subcommand::Script),
        "init" => Some(Subcommand::Init),
        "check" => Some(Subcommand::Check),
        "export" => Some(Subcommand::Export),
        "import" => Some(Subcommand::Import),
        "serve" => Some(Subcommand::Serve),
        "tell" => Some(Subcommand::Tell),
        _ => None,
    }
}

/// The options of an order: those of its fields, and of where it is carried out.
fn order_options(alloc: Global, name: OrderName) -> Result<Vec<OptionName>, AllocError>
    ensures { IfOk result (λ options. options.items ≡ spec.order_options name) }
{
    let mut options = field_options(alloc, name.fields())?;
    options.extend_from_slice(place_options(name.reach()))?;
    Ok(options)
}

/// The options that give the values of fields.
fn field_options(alloc: Global, fields: &[Field]) -> Result<Vec<OptionName>, AllocError>
    ensures { IfOk result (λ options. options.items ≡ map option_of fields.now) }
{
    fields.iter().copied().map(option_of).collect(alloc)
}

/// The options of where an order is carried out, and by which clock.
fn place_options(reach: Reach) -> &'static [OptionName]
    ensures { result.now ≡ spec.place_options reach }
{
    match reach {
        Reach::Host => &ON_HOST,
        Reach::Files => &ON_FILES,
        Reach::Server => &AT_SERVER,
    }
}
