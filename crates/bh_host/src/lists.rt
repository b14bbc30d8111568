//! Replies to operators that are lists: words separated by spaces, the number of entries first.
ghost use Rattle.std.specs.Prelude.{◌≡◌, ◌++◌, map, IfOk, OnOk};
ghost use Rattle.std.specs.String.{string_bytes};
ghost use Rattle.bh_storage.specs.Reports.{tenant_view};
ghost use Rattle.bh_host.specs.Replies as spec;

use bh_storage::report::TenantReport;
use std::alloc::{AllocError, Global};

fn push_word(line: &mut String, word: &str) -> Result<(), AllocError>
    ensures { OnOk result (string_bytes line.new ≡ string_bytes line.old ++ spec.next_word word.now) }
{
    line.push_str(" ")?;
    line.push_str(word)
}

/// The number of names, and the names.
pub fn names_end(alloc: Global, names: &[String]) -> Result<String, AllocError>
    ensures { IfOk result (λ text. string_bytes text ≡ spec.names_end (map string_bytes names.now)) }
{
    let count = names.len();
    let mut line = format!(in alloc; " {count}")?;
    for name in names {
        push_word(&mut line, name.as_str())?;
    }
    Ok(line)
}

fn tenant_words(alloc: Global, tenant: &TenantReport) -> Result<String, AllocError>
    ensures { IfOk result (λ text. string_bytes text ≡ spec.tenant_words (tenant_view tenant.now)) }
{
    let TenantReport {
        name,
        quota,
        used,
        keys,
    } = tenant;
    format!(in alloc; "{name} bytes {used} quota {quota} keys {keys}")
}

/// The reply with all tenants, their bytes, quotas and numbers of keys.
pub fn tenants_line(alloc: Global, tenants: &[TenantReport]) -> Result<String, AllocError>
    ensures { IfOk result (λ text. string_bytes text ≡ spec.tenants_text (map tenant_view tenants.now)) }
{
    let count = tenants.len();
    let mut line = format!(in alloc; "tenants {count}")?;
    for tenant in tenants {
        let words = tenant_words(alloc, tenant)?;
        push_word(&mut line, words.as_str())?;
    }
    Ok(line)
}
