ghost use Rattle.bh_model.specs.Operations.{add_key, remove_key};
ghost use Rattle.bh_schema.specs.Storage.{Works, CarriesOut};

use crate::host::{Carried, Digester, Host};
use crate::rows::keys::insert_key;
use crate::rows::known::{Known, find_key};
use crate::rows::named::{Named, delete_named};
use crate::texts::{are_names, are_texts};
use crate::trouble::or_trouble;
use bh_shelf::shelf::Shelf;
use bh_storage::error::StepError;
use bh_types::refusal::Refusal;
use sqlite::Alter;
use std::alloc::Global;

impl<S: Alter + Drop, P: Shelf + Drop, D: Digester + Drop> Host<S, P, D> {
    /// Adds an access key to a tenant. Refusals: InvalidName for either name or the secret,
    /// NoSuchTenant, KeyExists.
    pub fn key_add(&mut self, alloc: Global, tenant: &str, name: &str, secret: &str) -> Carried
        requires { Works S.Store P.Shelf D.digest_of self.old }
        ensures { CarriesOut S.Store P.Shelf D.digest_of self.old self.new tenant.now (add_key tenant.now name.now secret.now) result }
    {
        if !are_texts(alloc, tenant, name, secret)? {
            return Err(StepError::Refused(Refusal::InvalidName));
        }
        match or_trouble(find_key(&mut self.connection, tenant, name))? {
            Known::NoTenant => return Err(StepError::Refused(Refusal::NoSuchTenant)),
            Known::Key => return Err(StepError::Refused(Refusal::KeyExists)),
            Known::NoKey => (),
        }
        or_trouble(insert_key(&mut self.connection, tenant, name, secret))?;
        Ok(())
    }

    /// Deletes a tenant's access key. Refusals: InvalidName for either name, NoSuchTenant,
    /// NoSuchKeyName.
    pub fn key_remove(&mut self, alloc: Global, tenant: &str, name: &str) -> Carried
        requires { Works S.Store P.Shelf D.digest_of self.old }
        ensures { CarriesOut S.Store P.Shelf D.digest_of self.old self.new tenant.now (remove_key tenant.now name.now) result }
    {
        if !are_names(alloc, tenant, name)? {
            return Err(StepError::Refused(Refusal::InvalidName));
        }
        match or_trouble(find_key(&mut self.connection, tenant, name))? {
            Known::NoTenant => return Err(StepError::Refused(Refusal::NoSuchTenant)),
            Known::NoKey => return Err(StepError::Refused(Refusal::NoSuchKeyName)),
            Known::Key => (),
        }
        or_trouble(delete_named(&mut self.connection, tenant, name, Named::Key))?;
        Ok(())
    }
}
