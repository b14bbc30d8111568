//! An operator's order, and how it is read from the values of its fields.
ghost use Rattle.std.specs.Prelude.{◌≡◌};
ghost use Rattle.std.specs.Option.{option_copied};
ghost use Rattle.bh_event.specs.Events.{arrival, message_of, order_of, tenant_in, Ordered};
ghost use Rattle.bh_event.specs.Given.{Gives};
ghost use Rattle.bh_event.specs.Orders as spec;
ghost use Rattle.bh_event.specs.declared.name.OrderName.TheVariants as named;

use crate::event::{Command, Event, Message};
use crate::given::{Fields, GivenError, needed, text};
use crate::name::{Field, OrderName};
use std::alloc::Global;

/// What is ordered of a host. At a reading of the clock it is an event.
#[derive(Drop)]
pub enum HostOrder {
    /// A command on a tenant.
    Command(Command),
    /// Removes at most `limit` stale uploads and unreferenced blocks, of all tenants.
    Sweep { limit: u32 },
    /// Counts what all tenants have stored.
    Report,
    /// Lists all tenants.
    Tenants,
}

/// What a running server is asked about itself, and not about its host.
#[derive(Clone, Copy)]
pub enum Asked {
    /// Whether it serves requests.
    Health,
    /// What it has counted since its start.
    Metrics,
    /// To take the clock's present reading as right.
    ClockAccept,
}

/// An operator's order.
#[derive(Drop)]
pub enum Order {
    /// What is done on a host.
    Host(HostOrder),
    /// To copy a host to a new file of this name.
    Backup { to: String },
    /// To end a running server.
    Stop,
    /// What a running server is asked about itself.
    Server(Asked),
}

impl HostOrder {
    /// The order's event at a reading of the clock, in seconds since 1970.
    pub fn at(self, reading: u64) -> Event
        ensures { arrival result ≡ record { reading = reading; message = message_of self } }
    {
        Event {
            reading,
            message: Message::Order(self),
        }
    }

    /// The name of the tenant, if it is a command on one.
    pub fn tenant(&self) -> Option<&str>
        ensures { option_copied result ≡ tenant_in (message_of self.now) }
    {
        match self {
            HostOrder::Command(command) => Some(command.tenant()),
            HostOrder::Sweep { .. } | HostOrder::Report | HostOrder::Tenants => None,
        }
    }
}

/// The order of a name, by the values of its fields. Fails if one that is needed is missing or out
/// of range, or if memory runs out.
pub fn order_by<F: Fields>(alloc: Global, name: OrderName, given: &F) -> Result<Order, GivenError>
    ensures { Gives spec.instruction_of result (spec.instruction_by name (F.given given.now)) }
{
    match name {
        OrderName::TenantAdd => tenant_add(alloc, given),
        OrderName::Quota => quota(alloc, given),
        OrderName::TenantRemove => tenant_remove(alloc, given),
        OrderName::KeyAdd => key_add(alloc, given),
        OrderName::KeyRemove => key_remove(alloc, given),
        OrderName::Keys => keys(alloc, given),
        OrderName::Usage => usage(alloc, given),
        OrderName::Tenants => Ok(Order::Host(HostOrder::Tenants)),
        OrderName::Report => Ok(Order::Host(HostOrder::Report)),
        OrderName::Sweep => sweep(given),
        OrderName::Backup => backup(alloc, given),
        OrderName::Stop => Ok(Order::Stop),
        OrderName::Health => Ok(Order::Server(Asked::Health)),
        OrderName::Metrics => Ok(Order::Server(Asked::Metrics)),
        OrderName::ClockAccept => Ok(Order::Server(Asked::ClockAccept)),
    }
}

/// An order on a tenant.
fn commanded(command: Command) -> Order
    ensures { spec.instruction_of result ≡ spec.ToDo (Ordered (order_of command)) }
{
    Order::Host(HostOrder::Command(command))
}

fn tenant_add<F: Fields>(alloc: Global, given: &F) -> Result<Order, GivenError>
    ensures { Gives spec.instruction_of result (spec.instruction_by named.TenantAdd (F.given given.now)) }
{
    let tenant = text(alloc, given, Field::Tenant)?;
    let quota = needed(given.number(Field::Quota))?;
    Ok(commanded(Command::TenantAdd { tenant, quota }))
}

fn quota<F: Fields>(alloc: Global, given: &F) -> Result<Order, GivenError>
    ensures { Gives spec.instruction_of result (spec.instruction_by named.Quota (F.given given.now)) }
{
    let tenant = text(alloc, given, Field::Tenant)?;
    let quota = needed(given.number(Field::Quota))?;
    Ok(commanded(Command::Quota { tenant, quota }))
}

fn tenant_remove<F: Fields>(alloc: Global, given: &F) -> Result<Order, GivenError>
    ensures { Gives spec.instruction_of result (spec.instruction_by named.TenantRemove (F.given given.now)) }
{
    let tenant = text(alloc, given, Field::Tenant)?;
    let with_objects = needed(given.choice(Field::WithObjects))?;
    Ok(commanded(Command::TenantRemove {
        tenant,
        with_objects,
    }))
}

fn key_add<F: Fields>(alloc: Global, given: &F) -> Result<Order, GivenError>
    ensures { Gives spec.instruction_of result (spec.instruction_by named.KeyAdd (F.given given.now)) }
{
    let tenant = text(alloc, given, Field::Tenant)?;
    let name = text(alloc, given, Field::Name)?;
    let secret = text(alloc, given, Field::Secret)?;
    Ok(commanded(Command::KeyAdd {
        tenant,
        name,
        secret,
    }))
}

fn key_remove<F: Fields>(alloc: Global, given: &F) -> Result<Order, GivenError>
    ensures { Gives spec.instruction_of result (spec.instruction_by named.KeyRemove (F.given given.now)) }
{
    let tenant = text(alloc, given, Field::Tenant)?;
    let name = text(alloc, given, Field::Name)?;
    Ok(commanded(Command::KeyRemove { tenant, name }))
}

fn keys<F: Fields>(alloc: Global, given: &F) -> Result<Order, GivenError>
    ensures { Gives spec.instruction_of result (spec.instruction_by named.Keys (F.given given.now)) }
{
    let tenant = text(alloc, given, Field::Tenant)?;
    Ok(commanded(Command::Keys { tenant }))
}

fn usage<F: Fields>(alloc: Global, given: &F) -> Result<Order, GivenError>
    ensures { Gives spec.instruction_of result (spec.instruction_by named.Usage (F.given given.now)) }
{
    let tenant = text(alloc, given, Field::Tenant)?;
    Ok(commanded(Command::Usage { tenant }))
}

fn sweep<F: Fields>(given: &F) -> Result<Order, GivenError>
    ensures { Gives spec.instruction_of result (spec.instruction_by named.Sweep (F.given given.now)) }
{
    match u32::try_from(needed(given.number(Field::Limit))?) {
        Ok(limit) => Ok(Order::Host(HostOrder::Sweep { limit })),
        Err(_) => Err(GivenError::NotGiven),
    }
}

fn backup<F: Fields>(alloc: Global, given: &F) -> Result<Order, GivenError>
    ensures { Gives spec.instruction_of result (spec.instruction_by named.Backup (F.given given.now)) }
{
    let to = text(alloc, given, Field::To)?;
    Ok(Order::Backup { to })
}
