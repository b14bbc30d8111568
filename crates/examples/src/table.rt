//! Tables of examples: a line is a call, its input, ` => ` and the expected result, the two with
//! escapes. Empty lines and lines that begin with `#` are not rows.

use crate::blocks;
use example_calls::answer::{Answer, Fault};
use example_calls::calls;
use example_calls::escapes::unescaped;
use std::alloc::Global;
use std::rt::Files;
use std::{fs, io};

#[derive(Clone, Copy)]
struct Row<'a> {
    call: &'a str,
    input: &'a str,
    expected: &'a str,
}

fn row_of(line: &str) -> Row<'_> {
    let (asked, expected) = match line.split_once(" => ") {
        Some(parts) => parts,
        None => (line.strip_suffix(" =>").unwrap_or(line), ""),
    };
    let (call, input) = asked.split_once(' ').unwrap_or((asked, ""));
    Row {
        call,
        input,
        expected,
    }
}

/// The blocks of a host after the steps of a row, or the number of its cached blocks.
fn blocks_found(alloc: Global, call: &str, input: &[u8]) -> Answer {
    match str::from_utf8(input) {
        Ok(text) if call == "cached" => blocks::answer_cached(alloc, text),
        Ok(text) => blocks::answer(alloc, text),
        Err(_) => Err(Fault::Form),
    }
}

/// The result of a row's call.
fn found(alloc: Global, row: Row<'_>) -> Answer {
    let input = unescaped(alloc, row.input)?;
    match row.call {
        "blocks" | "cached" => blocks_found(alloc, row.call, input.as_slice()),
        call => calls::answer(alloc, call, input.as_slice()),
    }
}

fn is_expected(alloc: Global, row: Row<'_>, found: &str) -> Result<bool, Fault> {
    let expected = unescaped(alloc, row.expected)?;
    Ok(expected.as_slice() == found.as_bytes())
}

/// Whether a row's call returns the expected result. If not, the row is printed with its result.
fn check_row(rt: &(impl Print + AllocGlobal), row: Row<'_>) -> io::Result<bool> {
    let alloc = rt.alloc();
    let found = found(alloc, row);
    let is_well = match &found {
        Ok(text) => is_expected(alloc, row, text.as_str()) == Ok(true),
        Err(_) => false,
    };
    if !is_well {
        println!(rt;
            "{} {}\n  expected: {}\n  found:    {found:?}",
            row.call, row.input, row.expected
        )?;
    }
    Ok(is_well)
}

/// Checks each row of a table, and prints how many there are.
pub fn check_table(rt: &(impl Files + Print + AllocGlobal), name: &str) -> io::Result<bool> {
    let alloc = rt.alloc();
    let table = fs::read_to_string(rt, format!(in alloc; "tables/{name}.txt")?)?;
    let mut rows = 0u64;
    let mut others = 0u64;
    for line in table.lines() {
        if line.is_empty() || line.starts_with('#') {
            continue;
        }
        rows = rows.saturating_add(1);
        if !check_row(rt, row_of(line))? {
            others = others.saturating_add(1);
        }
    }
    if others == 0 {
        println!(rt; "{name}: {rows} rows as expected")?;
    } else {
        println!(rt; "{name}: {others} of {rows} rows otherwise")?;
    }
    Ok(others == 0)
}
