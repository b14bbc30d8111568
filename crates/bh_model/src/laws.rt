//! Laws of the definitions, each as the contract of a function that does nothing.
ghost use Rattle.bh_model.specs.Laws.{PurgedLater, PurgedTwice, PutIsFound, EnabledDeleteKeeps, SuspendedDeleteClears, PutIsRead};
ghost use Rattle.bh_model.specs.Laws.{CopyIsRead, AddedKeyOpens, RemovedKeyIsUnknown, RemovedTenantIsUnknown};
ghost use Rattle.bh_model.specs.Laws.{FollowersStepAlike, RunsJoin};

/// Purging a tenant's state, and then again at a later moment, is purging it at the later one.
pub fn purged_later()
    ensures { PurgedLater }
{}

/// Purging a tenant's state twice at one moment is purging it once.
pub fn purged_twice()
    ensures { PurgedTwice }
{}

/// After a put the new version is the current one, and its id finds it.
pub fn put_is_found()
    ensures { PutIsFound }
{}

/// A delete without id in an Enabled bucket leaves every older entry.
pub fn enabled_delete_keeps()
    ensures { EnabledDeleteKeeps }
{}

/// A delete without id in a Suspended bucket leaves no version `null` under its marker.
pub fn suspended_delete_clears()
    ensures { SuspendedDeleteClears }
{}

/// After a put, a get without id reads what was put.
pub fn put_is_read()
    ensures { PutIsRead }
{}

/// After a copy, a get without id reads what was copied.
pub fn copy_is_read()
    ensures { CopyIsRead }
{}

/// An access key that was added is its tenant's, and opens with its secret and no other.
pub fn added_key_opens()
    ensures { AddedKeyOpens }
{}

/// An access key that was removed is unknown.
pub fn removed_key_is_unknown()
    ensures { RemovedKeyIsUnknown }
{}

/// A tenant that was removed is gone, and so are its access keys.
pub fn removed_tenant_is_unknown()
    ensures { RemovedTenantIsUnknown }
{}

/// Two states that are equal once purged take the same step at any later moment.
pub fn followers_step_alike<Act, Answer, Fault>()
    ensures { FollowersStepAlike Act Answer Fault }
{}

/// The private run over two joined lists of acts is the run over the second, from the state after
/// the first.
pub fn runs_join<Act, Reply>()
    ensures { RunsJoin Act Reply }
{}
