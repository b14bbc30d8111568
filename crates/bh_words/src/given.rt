//! The values that `clap` found for the options of a subcommand.
ghost use Rattle.std.specs.Prelude.{◌≡◌, Some, option_map};
ghost use Rattle.std.specs.String.{string_bytes};
ghost use Rattle.bh_event.specs.Given.{Gives};
ghost use Rattle.bh_words.specs.Lines as lines;
ghost use Rattle.bh_words.specs.Readings as spec;

use crate::lines::{ClockTyped, DoorGiven, DoorsGiven, Leap, PlaceGiven, ServeGiven};
use crate::options::{OptionName, option_of};
use bh_event::given::{Fields, GivenError, needed};
use bh_event::name::Field;
use bh_types::block_digest::BlockDigest;
use bh_types::limits::{GREATEST_CACHE_BLOCKS, Limits, Tuning};
use clap::ArgMatches;
use std::alloc::Global;

/// The values of a subcommand's options, as those of an order's fields.
#[derive(Drop)]
pub(crate) struct Typed<'a, 'b>(pub(crate) &'b ArgMatches<'a>);

impl<'a, 'b> Fields for Typed<'a, 'b> {
    ghost use Rattle.bh_words.specs.Readings.{given_at, rows_in};

    ghost given = { λ typed. given_at (rows_in typed.0.now) };

    fn text(&self, field: Field) -> Option<&str> {
        written(self.0, option_of(field))
    }

    fn number(&self, field: Field) -> Option<u64> {
        number(self.0, option_of(field))
    }

    fn choice(&self, field: Field) -> Option<bool> {
        Some(is_given(self.0, option_of(field)))
    }
}

/// The text of an option, if it has one.
#[tactic(auto, using(crate::proofs::Rows::first_text))]
fn written<'a>(given: &ArgMatches<'a>, option: OptionName) -> Option<&'a str>
    ensures { option_map (λ s. s.now) result ≡ spec.text_at option (spec.rows_in given.now) }
{
    given.get_str(option.word())
}

/// The text of an option.
pub(crate) fn text(
    alloc: Global,
    given: &ArgMatches<'_>,
    option: OptionName,
) -> Result<String, GivenError>
    ensures { Gives string_bytes result (spec.text_at option (spec.rows_in given.now)) }
{
    match written(given, option) {
        Some(text) => Ok(String::from_str(alloc, text)?),
        None => Err(GivenError::NotGiven),
    }
}

/// The text of an option that may be missing.
pub(crate) fn text_if_given(
    alloc: Global,
    given: &ArgMatches<'_>,
    option: OptionName,
) -> Result<Option<String>, GivenError>
    ensures { Gives (option_map string_bytes) result (Some (spec.text_at option (spec.rows_in given.now))) }
{
    match written(given, option) {
        Some(text) => Ok(Some(String::from_str(alloc, text)?)),
        None => Ok(None),
    }
}

/// The number of an option, if it has one.
fn number(given: &ArgMatches<'_>, option: OptionName) -> Option<u64>
    ensures { result ≡ spec.number_at 64 option (spec.rows_in given.now) }
{
    match written(given, option) {
        Some(text) => number_of(text),
        None => None,
    }
}

/// The number in a text of decimal digits.
#[tactic(auto, using(crate::proofs::Numbers::number_parsed))]
pub(crate) fn number_of(text: &str) -> Option<u64>
    ensures { result ≡ spec.number_of 64 text.now }
{
    text.parse::<u64>().ok()
}

/// Whether an option without a value was given.
fn is_given(given: &ArgMatches<'_>, option: OptionName) -> bool
    ensures { result ≡ spec.is_given option (spec.rows_in given.now) }
{
    match written(given, option) {
        Some(text) => text == "true",
        None => false,
    }
}

/// How far ahead of the host's last stamp the clock may be: one day if nothing is given.
pub(crate) fn leap(given: &ArgMatches<'_>) -> Leap
    ensures { result ≡ spec.leap_at (spec.rows_in given.now) }
{
    clock(given).leap()
}

/// The clock of an order.
pub(crate) fn clock(given: &ArgMatches<'_>) -> ClockTyped
    ensures { result ≡ spec.clock_at (spec.rows_in given.now) }
{
    ClockTyped {
        at: number(given, OptionName::At),
        days: small_number(given, OptionName::ClockLeap),
        force: is_given(given, OptionName::Force),
    }
}

/// Where an order is carried out.
pub(crate) fn place(alloc: Global, given: &ArgMatches<'_>) -> Result<PlaceGiven, GivenError>
    ensures { Gives lines.place result (Some (spec.place_at (spec.rows_in given.now))) }
{
    Ok(PlaceGiven {
        file: text_if_given(alloc, given, OptionName::HostFile)?,
        door: door(
            alloc,
            given,
            OptionName::OperatorPort,
            OptionName::OperatorSocket,
        )?,
        secret_file: text_if_given(alloc, given, OptionName::OperatorSecretFile)?,
    })
}

/// The 32-bit number of an option, if it has one.
fn small_number(given: &ArgMatches<'_>, option: OptionName) -> Option<u32>
    ensures { result ≡ spec.number_at 32 option (spec.rows_in given.now) }
{
    match written(given, option) {
        Some(text) => small_number_of(text),
        None => None,
    }
}

#[tactic(auto, using(crate::proofs::Numbers::number_parsed))]
fn small_number_of(text: &str) -> Option<u32>
    ensures { result ≡ spec.number_of 32 text.now }
{
    text.parse::<u32>().ok()
}

/// The port of an option, if it has one.
fn port(given: &ArgMatches<'_>, option: OptionName) -> Option<u16>
    ensures { result ≡ spec.number_at 16 option (spec.rows_in given.now) }
{
    match written(given, option) {
        Some(text) => port_of(text),
        None => None,
    }
}

/// The port in a text of decimal digits; `None` if it is none.
#[tactic(auto, using(crate::proofs::Numbers::number_parsed))]
pub fn port_of(text: &str) -> Option<u16>
    ensures { result ≡ spec.number_of 16 text.now }
{
    text.parse::<u16>().ok()
}

/// Where the server listens, as given by these options of a port and a socket.
pub(crate) fn door(
    alloc: Global,
    given: &ArgMatches<'_>,
    port_option: OptionName,
    socket_option: OptionName,
) -> Result<DoorGiven, GivenError>
    ensures { Gives lines.door result (Some (spec.door_at port_option socket_option (spec.rows_in given.now))) }
{
    let socket = text_if_given(alloc, given, socket_option)?;
    Ok(DoorGiven {
        port: port(given, port_option),
        socket,
    })
}

/// Where a server listens for clients and for operators.
fn doors(alloc: Global, given: &ArgMatches<'_>) -> Result<DoorsGiven, GivenError>
    ensures { Gives lines.doors result (Some (spec.doors_at (spec.rows_in given.now))) }
{
    Ok(DoorsGiven {
        clients: door(alloc, given, OptionName::Port, OptionName::Socket)?,
        socket_group: text_if_given(alloc, given, OptionName::SocketGroup)?,
        operators: door(
            alloc,
            given,
            OptionName::OperatorPort,
            OptionName::OperatorSocket,
        )?,
        operator_secret_file: text_if_given(alloc, given, OptionName::OperatorSecretFile)?,
    })
}

/// How a host is served.
#[tactic(auto, unfolding(crate::specs::Readings::serving_at))]
pub(crate) fn serving(alloc: Global, given: &ArgMatches<'_>) -> Result<ServeGiven, GivenError>
    ensures { Gives lines.serving result (spec.serving_at (spec.rows_in given.now)) }
{
    let timeout = needed(number(given, OptionName::Timeout))?;
    let connections = needed(small_number(given, OptionName::Connections))?;
    let clock_step = needed(number(given, OptionName::ClockStep))?;
    let spool = text_if_given(alloc, given, OptionName::Spool)?;
    Ok(ServeGiven {
        doors: doors(alloc, given)?,
        count: number(given, OptionName::Count),
        log: is_given(given, OptionName::Log),
        timeout,
        connections,
        spool,
        clock_step,
        keep_garbage: number(given, OptionName::KeepGarbage),
    })
}

/// The limits of a new host.
#[tactic(auto, unfolding(crate::specs::Readings::limits_at))]
pub(crate) fn limits(given: &ArgMatches<'_>) -> Option<Limits>
    ensures { result ≡ spec.limits_at (spec.rows_in given.now) }
{
    let min_part = number(given, OptionName::MinPart)?;
    let max_body = number(given, OptionName::MaxBody)?;
    limits_of(min_part, max_body)
}

fn limits_of(min_part: u64, max_body: u64) -> Option<Limits>
    ensures { result ≡ spec.limits_of min_part max_body }
{
    Limits::new(min_part, max_body)
}

/// The settings of a process.
#[tactic(auto, unfolding(crate::specs::Readings::tuning_at))]
pub(crate) fn tuning(given: &ArgMatches<'_>) -> Option<Tuning>
    ensures { result ≡ spec.tuning_at (spec.rows_in given.now) }
{
    let block_size = number(given, OptionName::BlockSize)?;
    let cache_blocks = number(given, OptionName::CacheBlocks)?;
    let cache_bytes = number(given, OptionName::CacheBytes);
    tuning_of(block_size, cache_of(block_size, cache_blocks, cache_bytes))
}

// The maximum number of cached blocks: if bytes are given, they decide rather than a number of
// blocks.
fn cache_of(block_size: u64, cache_blocks: u64, cache_bytes: Option<u64>) -> u64
    ensures { result ≡ spec.cache_of block_size cache_blocks cache_bytes }
{
    match cache_bytes {
        Some(bytes) => blocks_in(bytes, block_size),
        None => cache_blocks,
    }
}

// A block size of 0 is refused in any case.
#[tactic(auto, using(crate::proofs::Numbers::no_size))]
fn blocks_in(bytes: u64, block_size: u64) -> u64
    ensures { result ≡ spec.blocks_in bytes block_size }
{
    if block_size == 0 {
        return 0;
    }
    (bytes / block_size).min(GREATEST_CACHE_BLOCKS)
}

fn tuning_of(block_size: u64, cache_blocks: u64) -> Option<Tuning>
    ensures { result ≡ spec.tuning_of block_size cache_blocks }
{
    Tuning::new(block_size, cache_blocks)
}

/// The digest function of a new host; the inner `None` if no function has that name.
pub(crate) fn digest(given: &ArgMatches<'_>) -> Option<Option<BlockDigest>>
    ensures { result ≡ spec.digest_at (spec.rows_in given.now) }
{
    match written(given, OptionName::Digest) {
        Some(text) => Some(digest_of(text)),
        None => None,
    }
}

fn digest_of(text: &str) -> Option<BlockDigest>
    ensures { result ≡ spec.digest_of text.now }
{
    if text == "sha256" {
        return Some(BlockDigest::Sha256);
    }
    if text == "fast" {
        return Some(BlockDigest::Fast);
    }
    None
}
