//! A stage over connections in memory: prints each request in the order in which it became whole,
//! and then what went out on each connection.
#![tactic(auto)]

mod pipes;

use bh_link::ends::{Sink, Source};
use bh_stage::stage::{Handed, Measures, Stage};
use bh_stage::whole::Door;
use bh_types::limits::Limits;
use pipes::{End, Event, Pipes, Scripted};
use std::cell::RefCell;
use std::io;
use std::rt::Runtime;

/// What happens: three clients and an operator, whose bytes come in pieces between one another's.
const EVENTS: [Event<'static>; 22] = [
    Event::Connects(Door::Clients),
    Event::Sends(
        0,
        b"PUT /a HTTP/1.1\r\nhost: h\r\ncontent-length: 6\r\n\r\nab",
    ),
    Event::Connects(Door::Clients),
    Event::Connects(Door::Operators),
    Event::Sends(2, b"swe"),
    Event::Sends(1, b"GET /b HTTP/1.1\r\nho"),
    Event::Connects(Door::Clients),
    Event::Sends(0, b"cd"),
    Event::Sends(1, b"st: h\r\n\r\n"),
    Event::Takes(1, 4),
    Event::Sends(3, b"GET /lost"),
    Event::Sends(2, b"ep\n"),
    Event::Resets(3),
    Event::Takes(2, 100),
    Event::Sends(0, b"e"),
    Event::Takes(1, 100),
    Event::Connects(Door::Clients),
    Event::Sends(4, b"not a request\r\n\r\n"),
    Event::Sends(0, b"f"),
    Event::Takes(0, 100),
    Event::Ends(1),
    Event::Takes(4, 7),
];

const MEASURES: Measures = Measures {
    timeout: 1_000,
    connections: 8,
    memory: 1_048_576,
    files: 0,
};

fn main(rt: HostRuntime) -> io::Result<()> {
    let pipes: Pipes = RefCell::new(Vec::new(rt.alloc()));
    let wires = Scripted {
        alloc: rt.alloc(),
        pipes: &pipes,
        events: &EVENTS,
        done: 0,
        waiting: None,
    };
    let mut stage = Stage::new(rt.alloc(), wires, MEASURES)?;
    let limits = Limits::default();
    for served in 0..EVENTS.len() {
        let Ok(mut handed) = stage.accept(&limits) else {
            break;
        };
        show(&rt, &mut handed)?;
        answer(&mut handed)?;
        stage.close(handed.turn, handed.reader, handed.writer, true);
    }
    show_all(&rt, &pipes)
}

/// Prints a request that was handed over, and all of its bytes.
fn show(rt: &impl Runtime, handed: &mut Handed<End<'_>, End<'_>>) -> io::Result<()> {
    let who = match handed.door {
        Door::Clients => "client",
        Door::Operators => "operator",
    };
    let mut room = [0u8; 64];
    let count = handed.reader.give(&mut room)?;
    let text = str::from_utf8(&room[..count]).unwrap_or("?");
    println!(rt; "{who} {}: {text}", handed.turn.number)?;
    Ok(())
}

/// Answers a request with its connection's number.
fn answer(handed: &mut Handed<End<'_>, End<'_>>) -> io::Result<()> {
    let text: &[u8] = match handed.turn.number {
        0 => b"answer 0",
        1 => b"answer 1",
        2 => b"answer 2",
        _ => b"answer to another one",
    };
    let _ = handed.writer.take(text)?;
    Ok(())
}

/// Prints what went out on each connection.
fn show_all(rt: &impl Runtime, pipes: &Pipes) -> io::Result<()> {
    let pipes = pipes.try_borrow()?;
    for (place, pipe) in pipes.iter().enumerate() {
        let text = str::from_utf8(pipe.out.as_slice()).unwrap_or("?");
        let end = if pipe.is_shut { "shut" } else { "open" };
        println!(rt; "{place} {end}: {text}")?;
    }
    Ok(())
}
