//! Laws of the definitions, each as the contract of a function that does nothing.
ghost use Rattle.bh_view.specs.Laws.{ViewsStandAlone, ViewsAreNumbered, NewHostIsSound, FreeIsLeast, EachPieceIsOnce};

/// A tenant's state depends on that tenant's rows alone.
pub fn views_stand_alone()
    ensures { ViewsStandAlone }
{}

/// In sound tables no two entries of a tenant's key have the same id, and none has the next version
/// number.
pub fn views_are_numbered()
    ensures { ViewsAreNumbered }
{}

/// The tables of a new host are sound and have no tenant; its last stamp is 0.
pub fn new_host_is_sound()
    ensures { NewHostIsSound }
{}

/// A block takes the least free ordinal of its digest.
pub fn free_is_least()
    ensures { FreeIsLeast }
{}

/// A body adds one block for each distinct piece that none had, and names it.
pub fn each_piece_is_once()
    ensures { EachPieceIsOnce }
{}
