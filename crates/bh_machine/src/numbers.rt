//! Laws of a tenant's counters, each as the contract of a function that does nothing.
ghost use Rattle.bh_machine.specs.Numbers.{StepsRise, StepsKeepIds, RunsKeepIds};

/// No step of the machine decreases a counter, and only the operator's removal takes a tenant away.
pub fn steps_rise()
    ensures { StepsRise }
{}

/// No step gives two entries of a key the same id.
pub fn steps_keep_ids()
    ensures { StepsKeepIds }
{}

/// Neither does any run from before the tenant was added.
pub fn runs_keep_ids()
    ensures { RunsKeepIds }
{}
