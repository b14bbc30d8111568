//! The operators' orders by name, with their fields.
ghost use Rattle.std.specs.Prelude.{◌≡◌};
ghost use Rattle.bh_event.specs.Names as spec;

/// A value of an order.
#[derive(Clone, Copy)]
pub enum Field {
    /// A tenant's name.
    Tenant,
    /// A tenant's quota, in bytes.
    Quota,
    /// Whether a tenant's buckets go with it.
    WithObjects,
    /// An access key's name.
    Name,
    /// An access key's secret.
    Secret,
    /// The most rows that a sweep removes.
    Limit,
    /// The path of a new file.
    To,
}

/// What an order is carried out on.
#[derive(Clone, Copy)]
pub enum Reach {
    /// A host, at a reading of the clock.
    Host,
    /// A host's files.
    Files,
    /// A server, and not its host.
    Server,
}

/// The name of an order.
#[derive(Clone, Copy)]
pub enum OrderName {
    TenantAdd,
    Quota,
    TenantRemove,
    KeyAdd,
    KeyRemove,
    Keys,
    Usage,
    Tenants,
    Report,
    Sweep,
    Backup,
    Stop,
    Health,
    Metrics,
    ClockAccept,
}

static NAMES: [OrderName; 15] = [
    OrderName::TenantAdd,
    OrderName::Quota,
    OrderName::TenantRemove,
    OrderName::KeyAdd,
    OrderName::KeyRemove,
    OrderName::Keys,
    OrderName::Usage,
    OrderName::Tenants,
    OrderName::Report,
    OrderName::Sweep,
    OrderName::Backup,
    OrderName::Stop,
    OrderName::Health,
    OrderName::Metrics,
    OrderName::ClockAccept,
];

static TENANT_QUOTA: [Field; 2] = [Field::Tenant, Field::Quota];

static TENANT_REMOVE: [Field; 2] = [Field::Tenant, Field::WithObjects];

static KEY_ADD: [Field; 3] = [Field::Tenant, Field::Name, Field::Secret];

static KEY_REMOVE: [Field; 2] = [Field::Tenant, Field::Name];

static TENANT: [Field; 1] = [Field::Tenant];

static LIMIT: [Field; 1] = [Field::Limit];

static TO: [Field; 1] = [Field::To];

impl OrderName {
    /// The order's word, in a line and on the command line.
    pub fn word<'a>(self) -> &'a str
        ensures { result.now ≡ spec.word self }
    {
        self.texts().0
    }

    /// What it does, for the help.
    pub fn about<'a>(self) -> &'a str {
        self.texts().1
    }

    fn texts<'a>(self) -> (&'a str, &'a str)
        ensures { result.0.now ≡ spec.word self }
    {
        match self {
            OrderName::TenantAdd => ("tenant-add", "Adds a tenant"),
            OrderName::Quota => ("quota", "Sets a tenant's quota"),
            OrderName::TenantRemove => ("tenant-remove", "Removes a tenant and its keys"),
            OrderName::KeyAdd => ("key-add", "Adds an access key to a tenant"),
            OrderName::KeyRemove => ("key-remove", "Removes a tenant's access key"),
            OrderName::Keys => ("keys", "Lists a tenant's access keys"),
            OrderName::Usage => ("usage", "Prints a tenant's bytes and its quota"),
            OrderName::Tenants => ("tenants", "Lists all tenants, with their bytes"),
            OrderName::Report => ("report", "Counts the stored blocks and their bytes"),
            OrderName::Sweep => ("sweep", "Removes stale uploads and unreferenced blocks"),
            OrderName::Backup => ("backup", "Copies the host to a new file"),
            OrderName::Stop => ("stop", "Ends a running server"),
            OrderName::Health => ("health", "Prints whether a running server answers requests"),
            OrderName::Metrics => ("metrics", "Prints what a running server has counted"),
            OrderName::ClockAccept => (
                "clock-accept",
                "Makes a running server take the present time of its clock as right",
            ),
        }
    }

    /// The fields whose values it has.
    pub fn fields(self) -> &'static [Field]
        ensures { result.now ≡ spec.fields self }
    {
        match self {
            OrderName::TenantAdd | OrderName::Quota => &TENANT_QUOTA,
            OrderName::TenantRemove => &TENANT_REMOVE,
            OrderName::KeyAdd => &KEY_ADD,
            OrderName::KeyRemove => &KEY_REMOVE,
            OrderName::Keys | OrderName::Usage => &TENANT,
            OrderName::Sweep => &LIMIT,
            OrderName::Backup => &TO,
            _ => &[],
        }
    }

    /// What it is carried out on.
    pub fn reach(self) -> Reach
        ensures { result ≡ spec.reach self }
    {
        match self {
            OrderName::Backup => Reach::Files,
            OrderName::Stop | OrderName::Health | OrderName::Metrics | OrderName::ClockAccept => {
                Reach::Server
            }
            _ => Reach::Host,
        }
    }

    /// The name with this word.
    pub fn named(word: &str) -> Option<OrderName>
        ensures { result ≡ spec.named word.now }
    {
        NAMES.iter().copied().find(|name| name.word() == word)
    }
}

/// Whether it is the word of an order on a host, which alone is an event.
pub(crate) fn is_event_word(word: &str) -> bool
    ensures { result ≡ spec.is_event_word word.now }
{
    match OrderName::named(word) {
        Some(name) => matches!(name.reach(), Reach::Host),
        None => false,
    }
}
