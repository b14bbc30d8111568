//! Laws of the definitions, each as the contract of a function that does nothing.
ghost use Rattle.bh_view.specs.Laws.{CompleteSweeps};

/// After a complete sweep no stale upload is left, and of the blocks exactly those that a reference
/// names, in their order.
pub fn complete_sweeps()
    ensures { CompleteSweeps }
{}
