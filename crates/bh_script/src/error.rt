ghost use Rattle.std.specs.Prelude.{◌≡◌};

use bh_storage::error::Trouble;
use std::alloc::AllocError;

/// Why a script was not answered to its end.
#[derive(Clone, Copy)]
pub enum ScriptError {
    /// Memory ran out for a line, or memory or the store failed for the new host.
    Trouble(Trouble),
    /// A write failed, or took none of some bytes.
    WriteFailed,
}

impl From<Trouble> for ScriptError {
    ghost use Rattle.bh_script.specs.declared.error.ScriptError.TheVariants as fault;

    ghost from_gives = { λ trouble e. e ≡ fault.Trouble trouble };

    fn from(trouble: Trouble) -> ScriptError {
        ScriptError::Trouble(trouble)
    }
}

impl From<AllocError> for ScriptError {
    ghost use Rattle.bh_storage.specs.declared.error.Trouble.TheVariants.{Memory};
    ghost use Rattle.bh_script.specs.declared.error.ScriptError.TheVariants as fault;

    ghost from_gives = { λ _ e. e ≡ fault.Trouble Memory };

    fn from(_error: AllocError) -> ScriptError {
        ScriptError::Trouble(Trouble::Memory)
    }
}
