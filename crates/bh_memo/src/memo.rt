ghost use Rattle.std.specs.Prelude.{◌≡◌, ◌≢◌, ◌⊎◌, Some, IsTrue, IfSome, Contains};
ghost use Rattle.bh_model.specs.State.{Octets};
ghost use Rattle.bh_memo.specs.declared.facts.KnownBucket.{KnownBucket as Known};
ghost use Rattle.bh_memo.specs.declared.facts.KnownSecret.{KnownSecret as Accepted};
ghost use Rattle.bh_memo.specs.Facts.{nothing};

use crate::facts::{KnownBucket, KnownSecret, same_bucket, same_key, same_tenant};
use bh_types::access_key::AccessKeyId;
use bh_types::bucket::BucketName;
use bh_types::bucket_state::BucketState;
use bh_types::moment::Moment;
use bh_types::names::{Secret, TenantName};
use std::alloc::{AllocError, Global};
use std::marker::Model;

/// How many tenants without a rule, states of buckets and secrets of keys are remembered, of each.
/// A look-up reads them one after another, so there are few.
const MOST: usize = 64;

/// Remembered facts of a host's tables. If there is no memory for a fact, it isn't remembered.
#[derive(Drop)]
pub struct Memo {
    latest: Option<Moment>,
    /// Tenants without any bucket's rule.
    quiet: Vec<TenantName>,
    buckets: Vec<KnownBucket>,
    /// Access keys that were accepted.
    secrets: Vec<KnownSecret>,
}

impl Model for Memo {
    ghost use Rattle.bh_memo.specs.Facts.{Facts};

    ghost Value = { Facts };

    ghost view = { λ m. record { latest = m.latest; quiet = m.quiet.items; buckets = m.buckets.items; secrets = m.secrets.items } };
}

/// Adds a fact. If the list is full, the fact replaces all others. If there is no memory, it isn't
/// added.
fn add<T: Drop>(facts: &mut Vec<T>, fact: T)
    ensures { (x : T) → Contains facts.new.items x → Contains facts.old.items x ⊎ (x ≡ fact) }
{
    if facts.len() >= MOST {
        facts.clear();
    }
    let _kept = facts.push(fact);
}

impl Memo {
    /// A memo without facts.
    pub fn new(alloc: Global) -> Memo
        ensures { result ≡ nothing }
    {
        Memo {
            latest: None,
            quiet: Vec::new(alloc),
            buckets: Vec::new(alloc),
            secrets: Vec::new(alloc),
        }
    }

    /// The last stamp, in seconds since 1970, if it is remembered.
    pub fn latest(&self) -> Option<Moment>
        ensures { result ≡ self.now.latest }
    {
        self.latest
    }

    /// Remembers the last stamp, in place of the one before.
    pub fn set_latest(&mut self, latest: Moment)
        ensures { self.new ≡ record self.old { latest = Some latest } }
    {
        self.latest = Some(latest);
    }

    /// Whether it is remembered that none of a tenant's buckets has a rule.
    pub fn is_quiet(&self, tenant: &TenantName) -> bool
        ensures { IsTrue result → Contains self.now.quiet tenant.now }
    {
        for name in &self.quiet {
            if same_tenant(name, tenant) {
                return true;
            }
        }
        false
    }

    /// Remembers that none of a tenant's buckets has a rule.
    pub fn remember_quiet(&mut self, tenant: &TenantName)
        ensures latest { self.new.latest ≡ self.old.latest }
        ensures quiet { (t : Octets) → Contains self.new.quiet t → Contains self.old.quiet t ⊎ (t ≡ tenant.now) }
        ensures buckets { self.new.buckets ≡ self.old.buckets }
        ensures secrets { self.new.secrets ≡ self.old.secrets }
    {
        let name: Result<TenantName, AllocError> = tenant.clone();
        if let Ok(name) = name {
            add(&mut self.quiet, name);
        }
    }

    /// The state of a tenant's bucket, if it is remembered.
    pub fn state(&self, tenant: &TenantName, bucket: &BucketName) -> Option<BucketState>
        ensures { IfSome result (λ state. Contains self.now.buckets (record { tenant = tenant.now; bucket = bucket.now; state = state })) }
    {
        for known in &self.buckets {
            if same_bucket(&known.bucket, bucket) && same_tenant(&known.tenant, tenant) {
                return Some(known.state);
            }
        }
        None
    }

    /// Remembers the state of a tenant's bucket.
    pub fn remember_state(&mut self, tenant: &TenantName, bucket: &BucketName, state: BucketState)
        ensures latest { self.new.latest ≡ self.old.latest }
        ensures quiet { self.new.quiet ≡ self.old.quiet }
        ensures buckets { (b : Known) → Contains self.new.buckets b
            → Contains self.old.buckets b ⊎ (b ≡ record { tenant = tenant.now; bucket = bucket.now; state = state }) }
        ensures secrets { self.new.secrets ≡ self.old.secrets }
    {
        if let Ok(known) = KnownBucket::new(tenant, bucket, state) {
            add(&mut self.buckets, known);
        }
    }

    /// The secret of an access key, if it is remembered.
    pub fn secret(&self, key: &AccessKeyId) -> Option<&Secret>
        ensures { IfSome result (λ secret. Contains self.now.secrets (record { key = key.now; secret = secret.now })) }
    {
        for known in &self.secrets {
            if same_key(&known.key, key) {
                return Some(&known.secret);
            }
        }
        None
    }

    /// Remembers the secret with which an access key was accepted.
    pub fn remember_secret(&mut self, alloc: Global, key: &AccessKeyId, secret: &[u8])
        ensures latest { self.new.latest ≡ self.old.latest }
        ensures quiet { self.new.quiet ≡ self.old.quiet }
        ensures buckets { self.new.buckets ≡ self.old.buckets }
        ensures secrets { (k : Accepted) → Contains self.new.secrets k
            → Contains self.old.secrets k ⊎ (k ≡ record { key = key.now; secret = secret.now }) }
    {
        if let Ok(Some(known)) = KnownSecret::read(alloc, key, secret) {
            add(&mut self.secrets, known);
        }
    }

    /// Forgets all facts about a tenant.
    pub fn forget(&mut self, tenant: &TenantName)
        ensures latest { self.new.latest ≡ self.old.latest }
        ensures quiet { (t : Octets) → Contains self.new.quiet t → Contains self.old.quiet t × (t ≢ tenant.now) }
        ensures buckets { (b : Known) → Contains self.new.buckets b → Contains self.old.buckets b × (b.tenant ≢ tenant.now) }
        ensures secrets { (k : Accepted) → Contains self.new.secrets k → Contains self.old.secrets k × (k.key.tenant ≢ tenant.now) }
    {
        self.quiet.retain(|name| !same_tenant(name, tenant));
        self.buckets
            .retain(|known| !same_tenant(&known.tenant, tenant));
        self.secrets
            .retain(|known| !same_tenant(&known.key.tenant, tenant));
    }

    /// Forgets all facts.
    pub fn clear(&mut self)
        ensures { self.new ≡ nothing }
    {
        self.latest = None;
        self.quiet.clear();
        self.buckets.clear();
        self.secrets.clear();
    }
}
