//! The files of packs that were removed.

ghost use Rattle.std.specs.Prelude.{◌≡◌, ◌∷◌, [], List};
ghost use Rattle.std.specs.Borrow.{ftrue};
ghost use Rattle.std.specs.Coded.{coded_list};

use std::marker::{Model, PhantomData};

/// The files of removed packs, which only clauses read. It takes no memory.
#[derive(Drop)]
pub struct Removed<D> {
    marker: PhantomData<D>,
    pub ghost files: { List D } by { coded_list D.code },
}

impl<D> Model for Removed<D> {
    ghost also_owns = { λ _. ftrue };
}

impl<D> Removed<D> {
    /// No pack was removed.
    pub(crate) fn new() -> Removed<D>
        ensures { result.files ≡ [] }
    {
        Removed {
            marker: PhantomData,
        }
    }

    /// One more pack is removed, of this file.
    pub(crate) fn note(&mut self, _file: &D)
        ensures { self.new.files ≡ _file.now ∷ self.old.files }
    {}
}
