//! The meaning of a check that finds nothing, and of a database whose blocks have bytes in packs.
ghost use Rattle.bh_check.specs.Awaits.{AwaitsBytes};
ghost use Rattle.bh_check.specs.Checked.{MakesSound};

/// If the store's rules hold and a check finds nothing, a host's tables are sound.
pub fn makes_sound()
    ensures { MakesSound }
{}

/// Whether a database is a host's depends on how many bytes packs have at each place, not on which.
pub fn awaits_bytes()
    ensures { AwaitsBytes }
{}
