ghost use Rattle.bh_model.specs.Operations.{add_tenant, set_quota};
ghost use Rattle.bh_schema.specs.Storage.{Works, CarriesOut};

use crate::host::{Carried, Digester, Host};
use crate::rows::tenants::{TenantNumber, find_tenant, insert_tenant, set_number};
use crate::texts::is_tenant;
use crate::trouble::or_trouble;
use bh_shelf::shelf::Shelf;
use bh_storage::error::StepError;
use bh_types::limits::is_quota;
use bh_types::refusal::Refusal;
use sqlite::Alter;
use std::alloc::Global;

impl<S: Alter + Drop, P: Shelf + Drop, D: Digester + Drop> Host<S, P, D> {
    /// Adds a tenant with a quota in bytes. Refusals: InvalidName, InvalidQuota, TenantExists.
    pub fn tenant_add(&mut self, alloc: Global, tenant: &str, quota: u64) -> Carried
        requires { Works S.Store P.Shelf D.digest_of self.old }
        ensures { CarriesOut S.Store P.Shelf D.digest_of self.old self.new tenant.now (add_tenant tenant.now quota) result }
    {
        if !is_tenant(alloc, tenant)? {
            return Err(StepError::Refused(Refusal::InvalidName));
        }
        if !is_quota(quota) {
            return Err(StepError::Refused(Refusal::InvalidQuota));
        }
        if or_trouble(find_tenant(&mut self.connection, tenant))?.is_some() {
            return Err(StepError::Refused(Refusal::TenantExists));
        }
        or_trouble(insert_tenant(&mut self.connection, tenant, quota))?;
        Ok(())
    }

    /// Sets a tenant's quota in bytes, which may be below its use. Refusals: InvalidName,
    /// InvalidQuota, NoSuchTenant.
    pub fn quota_set(&mut self, alloc: Global, tenant: &str, quota: u64) -> Carried
        requires { Works S.Store P.Shelf D.digest_of self.old }
        ensures { CarriesOut S.Store P.Shelf D.digest_of self.old self.new tenant.now (set_quota tenant.now quota) result }
    {
        if !is_tenant(alloc, tenant)? {
            return Err(StepError::Refused(Refusal::InvalidName));
        }
        if !is_quota(quota) {
            return Err(StepError::Refused(Refusal::InvalidQuota));
        }
        let found = or_trouble(find_tenant(&mut self.connection, tenant))?;
        if found.is_none() {
            return Err(StepError::Refused(Refusal::NoSuchTenant));
        }
        or_trouble(set_number(&mut self.connection, tenant, TenantNumber::Quota, quota))?;
        Ok(())
    }
}
