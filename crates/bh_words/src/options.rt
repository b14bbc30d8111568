//! The options of the subcommands, and their values.
ghost use Rattle.std.specs.Prelude.{◌≡◌, false};
ghost use Rattle.clap.specs.Words.{rule_of};
ghost use Rattle.bh_words.specs.Options as spec;

use bh_event::name::Field;
use clap::builder::ValueParser;
use clap::{Arg, ArgAction};
use std::alloc::Global;

/// An option of a subcommand, or its positional argument.
#[derive(Clone, Copy)]
pub(crate) enum OptionName {
    File,
    HostFile,
    To,
    From,
    Tenant,
    Name,
    Secret,
    Quota,
    WithObjects,
    At,
    ClockLeap,
    Force,
    Limit,
    Port,
    Socket,
    SocketGroup,
    Count,
    Log,
    Timeout,
    Connections,
    Spool,
    ClockStep,
    MinPart,
    MaxBody,
    BlockSize,
    CacheBlocks,
    CacheBytes,
    KeepGarbage,
    Digest,
    OperatorPort,
    OperatorSocket,
    OperatorSecretFile,
    SecretFile,
    Order,
}

/// The option that gives the value of a field.
pub(crate) fn option_of(field: Field) -> OptionName
    ensures { result ≡ spec.option_of field }
{
    match field {
        Field::Tenant => OptionName::Tenant,
        Field::Quota => OptionName::Quota,
        Field::WithObjects => OptionName::WithObjects,
        Field::Name => OptionName::Name,
        Field::Secret => OptionName::Secret,
        Field::Limit => OptionName::Limit,
        Field::To => OptionName::To,
    }
}

impl OptionName {
    /// The option's word after `--`.
    pub(crate) fn word<'a>(self) -> &'a str
        ensures { result.now ≡ spec.word self }
    {
        match self {
            OptionName::File | OptionName::HostFile => "file",
            OptionName::To => "to",
            OptionName::From => "from",
            OptionName::Tenant => "tenant",
            OptionName::Name => "name",
            OptionName::Secret => "secret",
            OptionName::Quota => "quota",
            OptionName::WithObjects => "with-objects",
            OptionName::At => "at",
            OptionName::ClockLeap => "clock-leap",
            OptionName::Force => "force",
            OptionName::Limit => "limit",
            OptionName::Port => "port",
            OptionName::Socket => "socket",
            OptionName::SocketGroup => "socket-group",
            OptionName::Count => "count",
            OptionName::Log => "log",
            OptionName::Timeout => "timeout",
            OptionName::Connections => "connections",
            OptionName::Spool => "spool",
            OptionName::ClockStep => "clock-step",
            OptionName::MinPart => "min-part",
            OptionName::MaxBody => "max-body",
            OptionName::BlockSize => "block-size",
            OptionName::CacheBlocks => "cache-blocks",
            OptionName::CacheBytes => "cache-bytes",
            OptionName::KeepGarbage => "keep-garbage",
            OptionName::Digest => "digest",
            OptionName::OperatorPort => "operator-port",
            OptionName::OperatorSocket => "operator-socket",
            OptionName::OperatorSecretFile => "operator-secret-file",
            OptionName::SecretFile => "secret-file",
            OptionName::Order => "LINE",
        }
    }

    fn help<'a>(self) -> &'a str {
        match self {
            OptionName::File | OptionName::HostFile => "Path of the host's file",
            OptionName::To => "Path of the new file; it must not exist, and its directory must",
            OptionName::From => "Path of a file that export made",
            OptionName::Tenant => "The tenant's name: 1 to 32 of the characters a-z and 0-9",
            OptionName::Name => "The key's name: 1 to 32 of the characters a-z and 0-9",
            OptionName::Secret =>
                "The key's secret: 8 to 64 printable ASCII characters; - reads it from standard input",
            OptionName::Quota =>
                "Maximum size of what the tenant may store, in bytes, or with a unit as in 10GB or 10GiB: 0 to 2^60",
            OptionName::WithObjects =>
                "Removes its buckets too, with all objects in them; without it, a tenant with a bucket stays",
            OptionName::At =>
                "Time of the command, in seconds since 1970; without it, the machine's clock",
            OptionName::ClockLeap =>
                "Maximum days by which the clock may be ahead of the host's last timestamp, and an imported file's ahead of both: 0 to 3,000,000 [default: 1]",
            OptionName::Force =>
                "Accepts any clock and any imported file, however far it is ahead of the host's last timestamp",
            OptionName::Limit =>
                "Maximum number of uploads and blocks to remove, together: 0 to 2^32 - 1",
            OptionName::Port => "Port on 127.0.0.1; with 0 the system chooses one",
            OptionName::Socket => "Path of a Unix socket, instead of --port",
            OptionName::SocketGroup =>
                "Group whose users may use the socket too, by its name or number; without it, only its owner",
            OptionName::Count =>
                "Ends after this many requests and orders: 1 to 2^32 - 1; without it, never",
            OptionName::Log => "Logs each request to standard error",
            OptionName::Timeout =>
                "Maximum seconds to read a request, and then to write its response: 1 to 3,600",
            OptionName::Connections => "Maximum number of open connections: 1 to 65,536",
            OptionName::Spool =>
                "Directory of temporary files for long requests and responses; without it, that of the host's file",
            OptionName::ClockStep =>
                "Maximum seconds by which the clock may jump while the server runs: 1 to 2^32 - 1",
            OptionName::MinPart =>
                "Minimum size of each part but the last, in bytes, or with a unit as in 10MB or 10MiB: 0 to 2^30",
            OptionName::MaxBody =>
                "Maximum size of a request's body, in bytes, or with a unit as in 10MB or 10MiB: 1 to 2^30",
            OptionName::BlockSize =>
                "Size of new blocks, in bytes, or with a unit as in 10kB or 10KiB: 1 to 1,048,576",
            OptionName::CacheBlocks => "Maximum number of cached blocks: 0 to 65,536",
            OptionName::CacheBytes =>
                "Maximum size of cached blocks, in bytes, or with a unit as in 10GB or 10GiB; overrides --cache-blocks: 0 to 2^36",
            OptionName::KeepGarbage =>
                "Unneeded bytes above which sweeps begin, or with a unit as in 10GB or 10GiB [default: 64 MiB, or a tenth of the rest of the file if more]",
            OptionName::Digest => "Block digest, fixed when the host is created: sha256 or fast",
            OptionName::OperatorPort =>
                "Port on 127.0.0.1 for operators' orders; with 0 the system chooses one",
            OptionName::OperatorSocket =>
                "Path of a Unix socket for operators' orders, instead of --operator-port",
            OptionName::OperatorSecretFile =>
                "Path of a file of mode 0600; each order must begin with its first line and a space",
            OptionName::SecretFile => "Path of the server's --operator-secret-file, if it has one",
            OptionName::Order =>
                "The order, as a JSON object without the member at; - reads it from standard input",
        }
    }

    /// The option, as it is declared to `clap`.
    pub(crate) fn arg<'a>(self, alloc: Global) -> Arg<'a>
        ensures rule { rule_of result ≡ spec.rule self }
        ensures local { result.global ≡ false }
    {
        match self {
            OptionName::File
            | OptionName::To
            | OptionName::From
            | OptionName::Tenant
            | OptionName::Name
            | OptionName::Secret => self.text(alloc),
            OptionName::Quota => self.number(alloc, 0, u64::MAX).required(true),
            OptionName::WithObjects => self.flag(alloc),
            OptionName::At => self.number(alloc, 0, u64::MAX),
            OptionName::ClockLeap => self.number(alloc, 0, 3_000_000),
            OptionName::Force => self.flag(alloc),
            OptionName::Limit => self.number(alloc, 0, 4_294_967_295).required(true),
            OptionName::Port => self.number(alloc, 0, 65_535),
            OptionName::Count => self.number(alloc, 1, 4_294_967_295),
            OptionName::Log => self.flag(alloc),
            OptionName::Timeout => self.number(alloc, 1, 3_600).default_value("30"),
            OptionName::Connections => self.number(alloc, 1, 65_536).default_value("4096"),
            OptionName::ClockStep => self.number(alloc, 1, 4_294_967_295).default_value("3600"),
            OptionName::MinPart => self.number(alloc, 0, 1 << 30).default_value("5242880"),
            OptionName::MaxBody => self.number(alloc, 1, 1 << 30).default_value("16777216"),
            OptionName::BlockSize => self.number(alloc, 1, 1_048_576).default_value("65536"),
            OptionName::CacheBlocks => self.number(alloc, 0, 65_536).default_value("0"),
            OptionName::CacheBytes => self.number(alloc, 0, 1 << 36),
            OptionName::KeepGarbage => self.number(alloc, 0, u64::MAX),
            OptionName::Digest => self.described(alloc).default_value("sha256"),
            OptionName::OperatorPort => self.number(alloc, 0, 65_535),
            OptionName::HostFile
            | OptionName::Socket
            | OptionName::SocketGroup
            | OptionName::Spool
            | OptionName::OperatorSocket
            | OptionName::OperatorSecretFile
            | OptionName::SecretFile => self.described(alloc),
            OptionName::Order => self.placed(alloc),
        }
    }

    // A required option with any text.
    fn text<'a>(self, alloc: Global) -> Arg<'a>
        ensures rule { rule_of result ≡ spec.text self }
        ensures local { result.global ≡ false }
    {
        self.described(alloc).required(true)
    }

    // An option with a number from `least` to `most`.
    fn number<'a>(self, alloc: Global, least: u64, most: u64) -> Arg<'a>
        ensures rule { rule_of result ≡ spec.number self least most }
        ensures local { result.global ≡ false }
    {
        self.described(alloc)
            .value_parser(ValueParser::unsigned(least, most))
    }

    // An option without a value.
    fn flag<'a>(self, alloc: Global) -> Arg<'a>
        ensures rule { rule_of result ≡ spec.flag self }
        ensures local { result.global ≡ false }
    {
        self.described(alloc).action(ArgAction::SetTrue)
    }

    // A required positional argument with any text.
    fn placed<'a>(self, alloc: Global) -> Arg<'a>
        ensures rule { rule_of result ≡ spec.placed self }
        ensures local { result.global ≡ false }
    {
        Arg::new(alloc, self.word())
            .help(self.help())
            .required(true)
    }

    fn described<'a>(self, alloc: Global) -> Arg<'a>
        ensures rule { rule_of result ≡ spec.described self }
        ensures local { result.global ≡ false }
    {
        Arg::new(alloc, self.word())
            .long(self.word())
            .help(self.help())
    }
}
