//! Facts about the definitions, each as the contract of a function that does nothing.
ghost use Rattle.bh_machine.specs.Refused.{StepRefusals};

/// No step of the machine is refused with ClockOutOfRange, ServiceUnavailable or Unavailable.
pub fn step_refusals()
    ensures { StepRefusals }
{}
