//! Laws of versions' dates, each as the contract of a function that does nothing.
ghost use Rattle.bh_machine.specs.Retained.{StepsKeepRetained, RunsKeepRetained};

/// No step deletes a version before its date, or moves the date nearer.
pub fn steps_keep_retained()
    ensures { StepsKeepRetained }
{}

/// Neither do any acts of a run that all come before it.
pub fn runs_keep_retained()
    ensures { RunsKeepRetained }
{}
