ghost use Rattle.std.specs.Prelude.{◌≡◌, IfOk};
ghost use Rattle.bh_maintenance.specs.Printing.{IsFault, IsLine, IsNothing, IsRefusal, IsReply};
ghost use Rattle.bh_maintenance.specs.Printing as spec;

use bh_types::refusal::Refusal;
use std::alloc::{AllocError, Global};

/// The text that a subcommand leaves to print on standard output, and its exit status.
#[derive(Drop)]
pub struct Printed {
    /// A line and its line feed; empty for a script, whose replies are written one by one.
    pub text: Vec<u8>,
    /// 0; or 1 if the line is a refusal or `fault`, or if a line of a script is invalid.
    pub status: u8,
}

/// Whether a line is a refusal: it begins with the refusal's number.
fn is_refusal(line: &[u8]) -> bool
    ensures { result ≡ spec.is_refusal line.now }
{
    match line {
        [first, ..] => b'0' <= *first && *first <= b'9',
        [] => false,
    }
}

fn line_of(alloc: Global, line: &[u8]) -> Result<Vec<u8>, AllocError>
    ensures { IfOk result (λ text. text.items ≡ spec.line_of line.now) }
{
    let mut text = Vec::from_slice(alloc, line)?;
    text.push(b'\n')?;
    Ok(text)
}

impl Printed {
    /// A line, with status 1 if it is a refusal.
    pub fn line(alloc: Global, line: &[u8]) -> Result<Printed, AllocError>
        ensures { IfOk result (IsLine line.now) }
    {
        let text = line_of(alloc, line)?;
        let status = if is_refusal(line) { 1 } else { 0 };
        Ok(Printed { text, status })
    }

    /// Nothing.
    pub fn nothing(alloc: Global) -> Printed
        ensures { IsNothing result }
    {
        Printed {
            text: Vec::new(alloc),
            status: 0,
        }
    }

    /// `fault`: a failure without a number.
    pub fn fault(alloc: Global) -> Result<Printed, AllocError>
        ensures { IfOk result IsFault }
    {
        let mut printed = Printed::line(alloc, b"fault")?;
        printed.status = 1;
        Ok(printed)
    }

    /// A server's reply to a line.
    pub fn told(alloc: Global, reply: &[u8]) -> Result<Printed, AllocError>
        ensures { IfOk result (IsReply reply.now) }
    {
        let Printed { text, status } = Printed::line(alloc, reply)?;
        if reply == b"bad line".as_slice() || reply == b"fault".as_slice() {
            return Ok(Printed { text, status: 1 });
        }
        Ok(Printed { text, status })
    }

    /// A refusal: its number and its code.
    pub fn refusal(alloc: Global, refusal: Refusal) -> Result<Printed, AllocError>
        ensures { IfOk result (IsRefusal refusal) }
    {
        let number = refusal.number();
        let code = refusal.code();
        let text = format!(in alloc; "{number} {code}\n")?.into_bytes();
        Ok(Printed { text, status: 1 })
    }
}
