//! Laws of ranges and of completions, each as the contract of a function that does nothing.
ghost use Rattle.bh_core.specs.Laws.{RangesLieWithin, PartsAreCut, WrittenIsAsked};
ghost use Rattle.bh_core.specs.Completions.{CompleteIsJoined};

/// A range that is returned has at least one byte, and lies within the object.
pub fn ranges_lie_within()
    ensures { RangesLieWithin }
{}

/// A part has as many bytes as positions.
pub fn parts_are_cut()
    ensures { PartsAreCut }
{}

/// A Range field in decimal digits requests the range that it was written for.
pub fn written_is_asked()
    ensures { WrittenIsAsked }
{}

/// A completed upload is the join of the parts at the places that its rows give, with the same
/// refusals.
pub fn complete_is_joined()
    ensures { CompleteIsJoined }
{}
