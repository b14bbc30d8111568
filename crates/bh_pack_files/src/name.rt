//! The name of a pack's file.

ghost use Rattle.std.specs.Prelude.{◌≡◌, IfOk, IfSome, string_bytes};
ghost use Rattle.bh_pack_files.specs.Names.{name_of};

use std::alloc::Global;
use std::io;
use std::io::ErrorKind;

/// What stands before a number's digits, but for as many zeros as it has digits.
const ZEROS: &str = "00000000";

/// The name of a pack's file: its number, counted from 1, in eight digits. A number of more digits has no
/// name.
pub(crate) fn name_of(alloc: Global, pack: usize) -> io::Result<String>
    ensures { IfOk result (λ name. string_bytes name ≡ name_of pack) }
{
    let Some(number) = pack.checked_add(1) else {
        return Err(ErrorKind::InvalidInput.into());
    };
    let digits = format!(in alloc; "{number}")?;
    let Some((_, zeros)) = ZEROS.split_at_checked(digits.len()) else {
        return Err(ErrorKind::InvalidInput.into());
    };
    Ok(format!(in alloc; "{}{}", zeros, digits.as_str())?)
}

/// The pack whose file has this name, if it is a pack's.
pub(crate) fn pack_of(alloc: Global, name: &str) -> io::Result<Option<usize>>
    ensures { IfOk result (λ found. IfSome found (λ pack. name.now ≡ name_of pack)) }
{
    let pack = match name.parse::<usize>() {
        Ok(number) if number > 0 && name.len() == ZEROS.len() => number - 1,
        Ok(_) | Err(_) => return Ok(None),
    };
    let own = name_of(alloc, pack)?;
    if own.as_str() == name {
        Ok(Some(pack))
    } else {
        Ok(None)
    }
}
