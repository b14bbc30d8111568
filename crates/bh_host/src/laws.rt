//! What the theorem implies for tenants.

ghost use Rattle.bh_host.specs.Runs.{EachIsAlone, AnswersAlike, HasOneTelling, RunsJoin};

/// After any run, each tenant was answered as by a machine of its own.
pub fn each_is_alone()
    ensures { EachIsAlone }
{}

/// Isolation: two hosts with equal limits answer a tenant alike if they agree on its initial state
/// and on its own stamped events. Other tenants' events don't matter.
#[tactic(auto, using(crate::proofs::Running::answers_alike))]
pub fn answers_alike()
    ensures { AnswersAlike }
{}

/// How each event was understood follows from the events, their stamps and replies, and the limits.
#[tactic(auto, using(crate::proofs::Running::one_telling))]
pub fn has_one_telling()
    ensures { HasOneTelling }
{}

/// Two runs, the second from where the first ended, are one run of all their events.
pub fn runs_join()
    ensures { RunsJoin }
{}
