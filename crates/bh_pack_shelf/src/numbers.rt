//! The packs that rows of a host name.

ghost use Rattle.std.specs.Prelude.{◌≡◌, ◌==◌, ◌++◌, ◌∷◌, [], IfOk, OnOk, map};
ghost use Rattle.std.specs.List.{list_any};
ghost use Rattle.bh_pack_shelf.specs.Rows.{pack_of, AreOnce};

use crate::fault::refused;
use bh_pack_files::Fault;
use bh_shelf::closed::Listed;
use std::io::ErrorKind;

/// The numbers of the packs. It is an error if two rows name the same.
pub(crate) fn numbers_of(
    rt: &HostRuntime,
    host: &str,
    listed: &[Listed],
) -> Result<Vec<usize>, Fault>
    ensures numbers { IfOk result (λ numbers. numbers.items ≡ map pack_of listed.now) }
    ensures once { IfOk result (λ numbers. AreOnce listed.now) }
{
    let mut numbers: Vec<usize> = Vec::new(rt.alloc());
    for index in 0..listed.len() {
        let pack = listed[index].pack;
        if is_in(numbers.as_slice(), pack) {
            return Err(refused(rt, host, pack, ErrorKind::AlreadyExists));
        }
        add(&mut numbers, pack)?;
    }
    Ok(numbers)
}

/// Whether a number is in a list.
fn is_in(numbers: &[usize], pack: usize) -> bool
    ensures { result ≡ list_any (λ number. number == pack) numbers.now }
{
    numbers.contains(&pack)
}

/// One more item of a list.
pub(crate) fn add<T: Drop>(list: &mut Vec<T>, item: T) -> Result<(), Fault>
    ensures { OnOk result (list.new.items ≡ list.old.items ++ item ∷ []) }
{
    match list.push(item) {
        Ok(()) => Ok(()),
        Err(_) => Err(Fault::Memory),
    }
}
