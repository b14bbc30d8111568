//! A host without packs.

ghost use Rattle.std.specs.Prelude.{ℕ, true, refl};
ghost use Rattle.std.proofs.Common.{◌∙◌};
ghost use Rattle.bh_shelf.specs.Contents.{nothing, HasNothing};
ghost use Rattle.bh_shelf.specs.Laws.{nothing_ends};

use crate::shelf::Shelf;
use bh_packs::place::{Hold, Lane, Place};
use bh_packs::trouble::Trouble;

/// No packs, and no room for one: all bytes are in the database's rows.
#[derive(Drop)]
pub struct NoShelf;

impl Shelf for NoShelf {
    ghost seen = { λ _. nothing };

    ghost stood = { λ _. nothing };

    ghost kept = { λ _. nothing };

    ghost may_leave = { λ _ left. (pack : ℕ) → HasNothing left pack };

    ghost ends = { λ _ _. 0 };

    ghost holds = { λ _ _. 0 };

    ghost is_clean = { λ _. true };

    ghost kept_seen = { λ _ _ _ _ _ has. has };

    ghost seen_ends = { λ _. nothing_ends };

    ghost kept_stands = { λ _ _ _ _ _ has. has };

    ghost leaves_standing = { λ _ _ _ leaves pack offset size _ has. leaves pack offset size ∙ has };

    ghost may_stay = { λ _ _. (nothing, λ _ _ _. refl, λ _ _ _ _ has. has) };

    fn append(&mut self, _lane: Lane, _bytes: &[u8]) -> Result<Place, Trouble> {
        Err(Trouble::Full)
    }

    fn sync(&mut self) -> Result<(), Trouble> {
        Ok(())
    }

    fn keep(&mut self) {}

    fn forget(&mut self) {}

    fn read(&mut self, _place: Place, _room: &mut [u8]) -> Result<(), Trouble> {
        Err(Trouble::Missing)
    }

    fn mark(&self, _pack: usize) -> Option<usize> {
        None
    }

    fn hold(&mut self, _pack: usize) -> Result<Hold, Trouble> {
        Err(Trouble::Missing)
    }

    fn let_go(&mut self, _hold: Hold) {}

    fn remove(&mut self, _pack: usize) -> Result<(), Trouble> {
        Err(Trouble::Missing)
    }
}
