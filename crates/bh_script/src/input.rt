ghost use Rattle.std.specs.Prelude.{◌≡◌, ◌++◌, ℕ, List, length, vec_items, IfOk};
ghost use Rattle.std.specs.Option.{option_map};
ghost use Rattle.std.specs.Io.KnownBytes.{Consumes, IsAtEnd};
ghost use Rattle.bh_script.specs.Input.{ReadsAll};

use bh_event::flaw::Flaw;
use std::alloc::Global;
use std::io;
use std::io::Read;

/// The maximum size of a script in bytes.
const GREATEST_SCRIPT: usize = 1 << 26;

/// A line that is not an event: its number, from 1, and the reason.
#[derive(Clone, Copy)]
pub struct BadLine {
    pub number: usize,
    pub flaw: Flaw,
}

/// All bytes of a reader, or `None` if they are more than a script may have.
pub fn read_all<R: Read>(alloc: Global, reader: &mut R) -> io::Result<Option<Vec<u8>>>
    ensures { IfOk result (λ read. ReadsAll (R.remaining reader.old) (R.remaining reader.new) (option_map vec_items read)) }
{
    let mut bytes = Vec::new(alloc);
    for pieces in 0..u64::MAX {
        if read_piece(reader, &mut bytes)? == 0 {
            return Ok(Some(bytes));
        }
        if bytes.len() > GREATEST_SCRIPT {
            return Ok(None);
        }
    }
    Ok(None)
}

/// Reads some bytes and appends them; 0 at the end.
fn read_piece<R: Read>(reader: &mut R, bytes: &mut Vec<u8>) -> io::Result<usize>
    ensures { IfOk result (λ n. (n ≡ 0 → IsAtEnd (R.remaining reader.new)) × ((piece : List ℕ) × (length piece ≡ n)
        × Consumes (R.remaining reader.old) (R.remaining reader.new) piece
        × (bytes.new.items ≡ bytes.old.items ++ piece))) }
{
    let mut room = [0u8; 16384];
    let count = reader.read(&mut room)?;
    bytes.extend_from_slice(&room[..count])?;
    Ok(count)
}
