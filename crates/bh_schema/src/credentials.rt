ghost use Rattle.bh_model.specs.Credentials.{authenticate};
ghost use Rattle.bh_view.specs.View.{view};
ghost use Rattle.bh_storage.specs.Calls.{Unless, Decides};
ghost use Rattle.bh_schema.specs.Storage.{IsClean, seen, Works, Keeps, StaysOpen, KeepsSettings};

use crate::host::{Digester, Host};
use crate::rows::keys::find_secret;
use crate::trouble::or_trouble;
use bh_shelf::shelf::Shelf;
use bh_storage::error::StepError;
use bh_types::access_key::AccessKeyId;
use bh_types::refusal::Refusal;
use sqlite::Alter;

impl<S: Alter + Drop, P: Shelf + Drop, D: Digester + Drop> Host<S, P, D> {
    /// Checks that an access key has this secret. Refusals: InvalidAccessKeyId, AccessDenied.
    pub fn authenticate(
        &mut self,
        key: &AccessKeyId,
        secret: &[u8],
    ) -> Result<(), StepError<Refusal>>
        requires { Works S.Store P.Shelf D.digest_of self.old }
        ensures within { Keeps S.Store P.Shelf self.old self.new }
        ensures opens { Unless result (StaysOpen S.Store P.Shelf self.old self.new) }
        ensures working { Unless result (Works S.Store P.Shelf D.digest_of self.new) }
        ensures decides { IsClean S.Store P.Shelf self.new
            → Decides (λ _. tt) (authenticate key.now secret.now (view (seen S.Store P.Shelf self.old).now key.now.tenant))
            (seen S.Store P.Shelf self.old).now (seen S.Store P.Shelf self.new).now result }
        ensures settings { KeepsSettings S.Store P.Shelf self.old self.new }
    {
        let Some(name) = &key.name else {
            return Err(StepError::Refused(Refusal::InvalidAccessKeyId));
        };
        let found = or_trouble(find_secret(
            &mut self.connection,
            key.tenant.as_str(),
            name.as_str(),
        ))?;
        let Some(known) = found else {
            return Err(StepError::Refused(Refusal::InvalidAccessKeyId));
        };
        if known.as_bytes() == secret {
            Ok(())
        } else {
            Err(StepError::Refused(Refusal::AccessDenied))
        }
    }
}
