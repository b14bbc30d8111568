ghost use Rattle.std.specs.Prelude.{◌≡◌};
ghost use Rattle.bh_event.specs.Events.{order_of, tenant_of};

use crate::order::HostOrder;

/// An operator's command. Names, secrets and quotas are unchecked: the host checks their ranges.
#[derive(Drop)]
pub enum Command {
    /// Adds a tenant with a quota in bytes.
    TenantAdd {
        tenant: String,
        quota: u64,
    },
    /// Sets a tenant's quota, in bytes.
    Quota {
        tenant: String,
        quota: u64,
    },
    /// Removes a tenant and its keys, and with `with_objects` its buckets and all in them.
    TenantRemove {
        tenant: String,
        with_objects: bool,
    },
    /// Adds an access key to a tenant.
    KeyAdd {
        tenant: String,
        name: String,
        secret: String,
    },
    /// Removes a tenant's access key.
    KeyRemove {
        tenant: String,
        name: String,
    },
    /// Asks how many bytes a tenant uses.
    Usage {
        tenant: String,
    },
    /// Asks for the names of a tenant's access keys.
    Keys {
        tenant: String,
    },
}

impl Command {
    /// The name of its tenant.
    pub fn tenant(&self) -> &str
        ensures { result.now ≡ tenant_of (order_of self.now) }
    {
        match self {
            Command::TenantAdd { tenant, .. } => tenant.as_str(),
            Command::Quota { tenant, .. } => tenant.as_str(),
            Command::TenantRemove { tenant, .. } => tenant.as_str(),
            Command::KeyAdd { tenant, .. } => tenant.as_str(),
            Command::KeyRemove { tenant, .. } => tenant.as_str(),
            Command::Usage { tenant } => tenant.as_str(),
            Command::Keys { tenant } => tenant.as_str(),
        }
    }
}

/// What a host is asked.
#[derive(Drop)]
pub enum Message {
    /// The bytes of an HTTP/1.1 request (RFC 9112).
    Request(Vec<u8>),
    /// An operator's order.
    Order(HostOrder),
}

/// An event of a host.
#[derive(Drop)]
pub struct Event {
    /// The clock's reading, in seconds since 1970.
    pub reading: u64,
    pub message: Message,
}
