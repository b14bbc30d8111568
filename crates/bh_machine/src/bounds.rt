//! Limits of a tenant's use, each as the contract of a function that does nothing.
ghost use Rattle.bh_machine.specs.Bounded.{StepsKeepQuota, StepsStayBounded, RunsStayBounded};

/// No step of the machine takes a tenant above its quota, and only steps that set the quota change
/// it.
pub fn steps_keep_quota()
    ensures { StepsKeepQuota }
{}

/// No step of the machine takes a tenant above 2^60 bytes.
pub fn steps_stay_bounded()
    ensures { StepsStayBounded }
{}

/// Neither does any run from before the tenant was added.
pub fn runs_stay_bounded()
    ensures { RunsStayBounded }
{}
