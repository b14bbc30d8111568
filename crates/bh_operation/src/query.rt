ghost use Rattle.std.specs.Prelude.{◌≡◌, IfOk, find};
ghost use Rattle.std.specs.List.{list_any};
ghost use Rattle.std.specs.Option.{option_copied};
ghost use Rattle.std.specs.Str.{bytes_eq};
ghost use Rattle.bh_types.specs.Outcomes.{Gives};
ghost use Rattle.bh_operation.specs.Queries as spec;

use crate::text::Text;
use bh_types::error::RequestError;
use bh_types::refusal::Refusal;
use form_urlencoded::{decode, raw_pairs};
use std::alloc::{AllocError, Global};

/// A parameter of a query, decoded.
#[derive(Drop)]
pub struct Parameter {
    pub name: Text,
    pub value: Text,
}

/// A parameter that selects the operation.
#[derive(Clone, Copy)]
pub enum Selector {
    ListType,
    Versions,
    Uploads,
    Versioning,
    Lifecycle,
    Usage,
    UploadId,
    Retention,
}

/// Parameters of operations that the host doesn't support.
const UNSUPPORTED: [&str; 27] = [
    "accelerate",
    "acl",
    "analytics",
    "attributes",
    "cors",
    "delete",
    "encryption",
    "intelligent-tiering",
    "inventory",
    "legal-hold",
    "location",
    "logging",
    "metrics",
    "notification",
    "object-lock",
    "ownershipControls",
    "policy",
    "policyStatus",
    "publicAccessBlock",
    "replication",
    "requestPayment",
    "restore",
    "select",
    "start-after",
    "tagging",
    "torrent",
    "website",
];

/// Parameters that operations use.
const ARGUMENTS: [&str; 12] = [
    "partNumber",
    "max-keys",
    "max-uploads",
    "max-parts",
    "continuation-token",
    "key-marker",
    "version-id-marker",
    "upload-id-marker",
    "part-number-marker",
    "prefix",
    "delimiter",
    "versionId",
];

/// The parameters of a query, parsed as a form (`application/x-www-form-urlencoded` of the WHATWG
/// URL Standard). Fails if memory runs out.
pub fn read_query(alloc: Global, query: &[u8]) -> Result<Vec<Parameter>, AllocError>
    ensures { IfOk result (λ found. found.items ≡ spec.parameters_of query.now) }
{
    let mut found = Vec::new(alloc);
    for (name, value) in raw_pairs(query) {
        found.push(Parameter {
            name: text_of(alloc, name)?,
            value: text_of(alloc, value)?,
        })?;
    }
    Ok(found)
}

fn text_of(alloc: Global, bytes: &[u8]) -> Result<Text, AllocError>
    ensures { IfOk result (λ text. text ≡ spec.form_text bytes.now) }
{
    Ok(Text::new(decode(alloc, bytes)?.into_owned(alloc)?))
}

fn is_among(names: &[&str], name: &str) -> bool
    ensures { result ≡ list_any (λ n. bytes_eq n.now name.now) names.now }
{
    names.iter().any(|n| *n == name)
}

/// Whether a parameter belongs to an operation that the host doesn't support.
#[tactic(auto, unfolding(crate::specs::Queries::is_unsupported))]
pub fn is_unsupported(name: &str) -> bool
    ensures { result ≡ spec.is_unsupported name.now }
{
    is_among(&UNSUPPORTED, name)
}

/// The selector with this name, if there is one.
#[tactic(auto, unfolding(crate::specs::Queries::selector_of))]
fn selector_of(name: &str) -> Option<Selector>
    ensures { result ≡ spec.selector_of name.now }
{
    match name {
        "list-type" => Some(Selector::ListType),
        "versions" => Some(Selector::Versions),
        "uploads" => Some(Selector::Uploads),
        "versioning" => Some(Selector::Versioning),
        "lifecycle" => Some(Selector::Lifecycle),
        "usage" => Some(Selector::Usage),
        "uploadId" => Some(Selector::UploadId),
        "retention" => Some(Selector::Retention),
        _ => None,
    }
}

fn is_selector(name: &str) -> bool
    ensures { result ≡ spec.is_selector name.now }
{
    selector_of(name).is_some()
}

fn count_selectors(parameters: &[Parameter]) -> usize
    ensures { result ≡ spec.count_selectors parameters.now }
{
    parameters
        .iter()
        .filter(|p| is_selector(p.name.as_str()))
        .count()
}

fn find_selector(parameters: &[Parameter]) -> Option<&Parameter>
    ensures { option_copied result ≡ find (λ p. spec.is_selector p.name) parameters.now }
{
    parameters.iter().find(|p| is_selector(p.name.as_str()))
}

fn first_selector(parameters: &[Parameter]) -> Option<Selector>
    ensures { result ≡ spec.first_selector parameters.now }
{
    find_selector(parameters).and_then(|p| selector_of(p.name.as_str()))
}

/// The selector among the parameters, if there is one. Fails with InvalidArgument if there are two.
#[tactic(auto, unfolding(crate::specs::Queries::selected))]
pub fn selected(parameters: &[Parameter]) -> Result<Option<Selector>, Refusal>
    ensures { result ≡ spec.selected parameters.now }
{
    if count_selectors(parameters) > 1 {
        return Err(Refusal::InvalidArgument);
    }
    Ok(first_selector(parameters))
}

#[tactic(auto, unfolding(crate::specs::Queries::is_argument))]
fn is_known(name: &str) -> bool
    ensures { result ≡ spec.is_known name.now }
{
    is_unsupported(name) || is_selector(name) || is_among(&ARGUMENTS, name)
}

fn count_named(name: &str, parameters: &[Parameter]) -> usize
    ensures { result ≡ spec.count_named name.now parameters.now }
{
    parameters
        .iter()
        .filter(|p| p.name.as_str() == name)
        .count()
}

fn is_repeated(parameter: &Parameter, parameters: &[Parameter]) -> bool
    ensures { result ≡ spec.is_repeated parameters.now parameter.now }
{
    let name = parameter.name.as_str();
    is_known(name) && count_named(name, parameters) > 1
}

fn any_repeated(parameters: &[Parameter]) -> bool
    ensures { result ≡ list_any (spec.is_repeated parameters.now) parameters.now }
{
    parameters.iter().any(|p| is_repeated(p, parameters))
}

/// The parameters of a query. Fails with InvalidArgument if one that the host knows is repeated.
#[tactic(auto, unfolding(crate::specs::Queries::given_once, crate::specs::Queries::parameters_in))]
pub fn parameters_in(alloc: Global, query: &[u8]) -> Result<Vec<Parameter>, RequestError>
    ensures { Gives (λ found. found.items) result (spec.parameters_in query.now) }
{
    let parameters = read_query(alloc, query)?;
    if any_repeated(parameters.as_slice()) {
        return Err(RequestError::Refused(Refusal::InvalidArgument));
    }
    Ok(parameters)
}

/// The value of a parameter, if it is given.
pub fn value_of<'a>(name: &str, parameters: &'a [Parameter]) -> Option<&'a str>
    ensures { option_copied result ≡ spec.value_of name.now parameters.now }
{
    parameters
        .iter()
        .find(|p| p.name.as_str() == name)
        .map(|p| p.value.as_str())
}
