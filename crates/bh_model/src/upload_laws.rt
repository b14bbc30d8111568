//! Laws of multipart uploads, each as the contract of a function that does nothing.
ghost use Rattle.bh_model.specs.UploadLaws.{BegunIsFound, PartIsRead, AbortedIsGone, CompletedIsGone};

/// An upload that was begun is found by the returned id.
pub fn begun_is_found()
    ensures { BegunIsFound }
{}

/// If an upload is completed with one part, a get without id reads that part's bytes.
pub fn part_is_read()
    ensures { PartIsRead }
{}

/// An upload that was aborted is gone.
pub fn aborted_is_gone()
    ensures { AbortedIsGone }
{}

/// An upload that was completed is gone, too.
pub fn completed_is_gone()
    ensures { CompletedIsGone }
{}
