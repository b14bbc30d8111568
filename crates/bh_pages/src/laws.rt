//! Laws of the definitions, each as the contract of a function that does nothing.
ghost use Rattle.bh_pages.specs.Laws.{PagesChain, PartsChain, UploadsChain, VersionsChain};

/// Pages of a listing of objects, each begun by the token of the one before, list each entry once
/// and in order, whatever their sizes.
pub fn pages_chain()
    ensures { PagesChain }
{}

/// Pages of a listing of versions, each begun by the markers of the one before, list each entry
/// once and in order, whatever their sizes. In the bucket, no two entries of a key may have the
/// same id.
pub fn versions_chain()
    ensures { VersionsChain }
{}

/// Pages of a listing of uploads, each begun by the markers of the one before, list each entry once
/// and in order, whatever their sizes.
pub fn uploads_chain()
    ensures { UploadsChain }
{}

/// Pages of a listing of an upload's parts, each begun by the number of the one before, list each
/// part once and in order, whatever their sizes.
pub fn parts_chain()
    ensures { PartsChain }
{}
