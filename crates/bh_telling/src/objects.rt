//! The JSON object (RFC 8259) of each order. If it has an `at`, that is 0: a server doesn't look at it.

ghost use Rattle.std.specs.Prelude.{◌≡◌, ◌≤◌, IfOk};
ghost use Rattle.serde_json.specs.View.{view};
ghost use Rattle.bh_event.specs.Events.{order_of, message_of};
ghost use Rattle.bh_event.specs.Orders.{instruction_of};
ghost use Rattle.bh_telling.specs.Objects as spec;

use bh_event::event::Command;
use bh_event::order::{Asked, HostOrder, Order};
use serde_json::{Value, json};
use std::alloc::{AllocError, Global};

fn tenant_add(alloc: Global, tenant: &str, quota: u64) -> Result<Value, AllocError>
    ensures { IfOk result (λ value. view value ≡ spec.tenant_add tenant.now quota) }
{
    json!(in alloc; {"at": 0_u64, "op": "tenant-add", "quota": quota, "tenant": tenant})
}

fn quota(alloc: Global, tenant: &str, quota: u64) -> Result<Value, AllocError>
    ensures { IfOk result (λ value. view value ≡ spec.quota_set tenant.now quota) }
{
    json!(in alloc; {"at": 0_u64, "op": "quota", "quota": quota, "tenant": tenant})
}

fn tenant_remove(alloc: Global, tenant: &str, with_objects: bool) -> Result<Value, AllocError>
    ensures { IfOk result (λ value. view value ≡ spec.tenant_remove tenant.now with_objects) }
{
    json!(in alloc; {"at": 0_u64, "op": "tenant-remove", "tenant": tenant, "with_objects": with_objects})
}

fn key_add(alloc: Global, tenant: &str, name: &str, secret: &str) -> Result<Value, AllocError>
    ensures { IfOk result (λ value. view value ≡ spec.key_add tenant.now name.now secret.now) }
{
    json!(in alloc; {"at": 0_u64, "name": name, "op": "key-add", "secret": secret, "tenant": tenant})
}

fn key_remove(alloc: Global, tenant: &str, name: &str) -> Result<Value, AllocError>
    ensures { IfOk result (λ value. view value ≡ spec.key_remove tenant.now name.now) }
{
    json!(in alloc; {"at": 0_u64, "name": name, "op": "key-remove", "tenant": tenant})
}

fn usage(alloc: Global, tenant: &str) -> Result<Value, AllocError>
    ensures { IfOk result (λ value. view value ≡ spec.usage tenant.now) }
{
    json!(in alloc; {"at": 0_u64, "op": "usage", "tenant": tenant})
}

fn keys(alloc: Global, tenant: &str) -> Result<Value, AllocError>
    ensures { IfOk result (λ value. view value ≡ spec.keys tenant.now) }
{
    json!(in alloc; {"at": 0_u64, "op": "keys", "tenant": tenant})
}

fn sweep(alloc: Global, limit: u32) -> Result<Value, AllocError>
    ensures object { IfOk result (λ value. view value ≡ spec.sweep limit) }
    ensures limited { limit ≤ spec.greatest_limit }
{
    json!(in alloc; {"at": 0_u64, "limit": u64::from(limit), "op": "sweep"})
}

fn report(alloc: Global) -> Result<Value, AllocError>
    ensures { IfOk result (λ value. view value ≡ spec.report) }
{
    json!(in alloc; {"at": 0_u64, "op": "report"})
}

fn tenants(alloc: Global) -> Result<Value, AllocError>
    ensures { IfOk result (λ value. view value ≡ spec.tenants) }
{
    json!(in alloc; {"at": 0_u64, "op": "tenants"})
}

/// The object of a command on a tenant.
fn command_object(alloc: Global, command: &Command) -> Result<Value, AllocError>
    ensures { IfOk result (λ value. view value ≡ spec.object_of (order_of command.now)) }
{
    match command {
        Command::TenantAdd {
            tenant,
            quota: bytes,
        } => tenant_add(alloc, tenant.as_str(), *bytes),
        Command::Quota {
            tenant,
            quota: bytes,
        } => quota(alloc, tenant.as_str(), *bytes),
        Command::TenantRemove {
            tenant,
            with_objects,
        } => tenant_remove(alloc, tenant.as_str(), *with_objects),
        Command::KeyAdd {
            tenant,
            name,
            secret,
        } => key_add(alloc, tenant.as_str(), name.as_str(), secret.as_str()),
        Command::KeyRemove { tenant, name } => { key_remove(alloc, tenant.as_str(), name.as_str()) }
        Command::Usage { tenant } => usage(alloc, tenant.as_str()),
        Command::Keys { tenant } => keys(alloc, tenant.as_str()),
    }
}

/// The object of an order on a host.
fn host_object(alloc: Global, order: &HostOrder) -> Result<Value, AllocError>
    ensures object { IfOk result (λ value. view value ≡ spec.object_in (message_of order.now)) }
    ensures limited { spec.IsLimited (message_of order.now) }
{
    match order {
        HostOrder::Command(command) => command_object(alloc, command),
        HostOrder::Sweep { limit } => sweep(alloc, *limit),
        HostOrder::Report => report(alloc),
        HostOrder::Tenants => tenants(alloc),
    }
}

/// The object of a backup to a new file.
fn backup(alloc: Global, to: &str) -> Result<Value, AllocError>
    ensures { IfOk result (λ value. view value ≡ spec.backup to.now) }
{
    json!(in alloc; {"at": 0_u64, "op": "backup", "to": to})
}

/// The object of an order that a server alone carries out.
fn server_object(alloc: Global, op: &str) -> Result<Value, AllocError>
    ensures { IfOk result (λ value. view value ≡ spec.server_object op.now) }
{
    json!(in alloc; {"op": op})
}

fn asked_word<'a>(asked: Asked) -> &'a str
    ensures { result.now ≡ spec.asked_word asked }
{
    match asked {
        Asked::Health => "health",
        Asked::Metrics => "metrics",
        Asked::ClockAccept => "clock-accept",
    }
}

/// The object of an order.
pub(crate) fn order_object(alloc: Global, order: &Order) -> Result<Value, AllocError>
    ensures object { IfOk result (λ value. view value ≡ spec.object_of_order (instruction_of order.now)) }
    ensures limited { spec.IsInRange (instruction_of order.now) }
{
    match order {
        Order::Host(order) => host_object(alloc, order),
        Order::Backup { to } => backup(alloc, to.as_str()),
        Order::Stop => server_object(alloc, "stop"),
        Order::Server(asked) => server_object(alloc, asked_word(*asked)),
    }
}
