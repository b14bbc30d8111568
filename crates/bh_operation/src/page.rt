ghost use Rattle.std.specs.Prelude.{◌≡◌, IfOk};
ghost use Rattle.bh_types.specs.Outcomes.{Gives};
ghost use Rattle.bh_operation.specs.Pages as spec;

use crate::number::{page_size, part_marker, token_in, wanted};
use crate::query::{Parameter, value_of};
use crate::text::{Bytes, Text};
use bh_types::error::RequestError;
use bh_types::id::UploadId;
use bh_types::refusal::Refusal;
use bh_types::wanted::Wanted;
use std::alloc::{AllocError, Global};

/// The parameters of a page of a bucket's listing.
#[derive(Drop)]
pub struct Page {
    /// The prefix of the listed keys.
    pub prefix: Text,
    /// After the prefix, keys are grouped up to this text; empty for no grouping.
    pub delimiter: Text,
    /// The maximum number of entries on the page: 0 to 1,000.
    pub size: u32,
}

/// The parameters of a page of an upload's parts.
#[derive(Clone, Copy, PartialEq, Eq)]
pub struct PartPage {
    /// The maximum number of parts on the page: 0 to 1,000.
    pub size: u32,
    /// The number after which it begins, 0 for the first page.
    pub after: u64,
}

/// The entry after which a page of versions begins.
#[derive(Drop)]
pub struct VersionMarker {
    /// A name, which may not be any key's.
    pub key: Text,
    /// `Current` means after all versions of that name.
    pub version: Wanted,
}

/// The entry after which a page of uploads begins.
#[derive(Drop)]
pub struct UploadMarker {
    /// A name, which may not be any key's.
    pub key: Text,
    /// `None` means after all uploads of that name.
    pub upload: Option<UploadId>,
}

fn text_or_empty(alloc: Global, name: &str, parameters: &[Parameter]) -> Result<Text, AllocError>
    ensures { IfOk result (λ text. text ≡ spec.text_or_empty name.now parameters.now) }
{
    Text::copy_of(alloc, value_of(name, parameters).unwrap_or(""))
}

/// The page that the parameters request; its size is in the parameter `size_name`. Fails with
/// InvalidArgument if the size is not 1 to 10 digits. The default and maximum is 1,000.
#[tactic(auto, unfolding(crate::specs::Pages::page_in))]
pub(crate) fn page_in(
    alloc: Global,
    size_name: &str,
    parameters: &[Parameter],
) -> Result<Page, RequestError>
    ensures { Gives (λ x. x) result (spec.page_in size_name.now parameters.now) }
{
    let size = page_size(value_of(size_name, parameters))?;
    let prefix = text_or_empty(alloc, "prefix", parameters)?;
    let delimiter = text_or_empty(alloc, "delimiter", parameters)?;
    Ok(Page {
        prefix,
        delimiter,
        size,
    })
}

/// The page of uploads that the parameters request, as for [`page_in`].
#[tactic(auto, unfolding(crate::specs::Pages::upload_page))]
pub(crate) fn upload_page(alloc: Global, parameters: &[Parameter]) -> Result<Page, RequestError>
    ensures { Gives (λ x. x) result (spec.upload_page parameters.now) }
{
    page_in(alloc, "max-uploads", parameters)
}

/// The page of parts that the parameters request. Fails with InvalidArgument if its size or its
/// marker is not 1 to 10 digits.
#[tactic(auto, unfolding(crate::specs::Pages::part_page))]
pub(crate) fn part_page(parameters: &[Parameter]) -> Result<PartPage, Refusal>
    ensures { result ≡ spec.part_page parameters.now }
{
    let size = page_size(value_of("max-parts", parameters))?;
    let after = part_marker(value_of("part-number-marker", parameters))?;
    Ok(PartPage { size, after })
}

/// Fails with InvalidArgument unless `list-type` is `2`, for S3's ListObjectsV2.
#[tactic(auto, unfolding(crate::specs::Pages::second_version))]
pub(crate) fn second_version(parameters: &[Parameter]) -> Result<(), Refusal>
    ensures { result ≡ spec.second_version parameters.now }
{
    match value_of("list-type", parameters) {
        Some("2") => Ok(()),
        _ => Err(Refusal::InvalidArgument),
    }
}

/// The bytes of the continuation token, if one is given. Fails with InvalidArgument if it is not
/// pairs of hexadecimal digits.
#[tactic(auto, unfolding(crate::specs::Pages::token_of))]
pub(crate) fn token_of(
    alloc: Global,
    parameters: &[Parameter],
) -> Result<Option<Bytes>, RequestError>
    ensures { Gives (λ x. x) result (spec.token_of parameters.now) }
{
    value_of("continuation-token", parameters)
        .map(|text| token_in(alloc, text))
        .transpose()
}

/// The position at which a page of versions begins. Fails with InvalidArgument if an id is given
/// without a key.
#[tactic(auto, unfolding(crate::specs::Pages::version_marker))]
pub(crate) fn version_marker(
    alloc: Global,
    parameters: &[Parameter],
) -> Result<Option<VersionMarker>, RequestError>
    ensures { Gives (λ x. x) result (spec.version_marker parameters.now) }
{
    let key = value_of("key-marker", parameters);
    let id = value_of("version-id-marker", parameters);
    match (key, id) {
        (Some(key), id) => Ok(Some(VersionMarker {
            key: Text::copy_of(alloc, key)?,
            version: wanted(id),
        })),
        (None, None) => Ok(None),
        (None, Some(_)) => Err(RequestError::Refused(Refusal::InvalidArgument)),
    }
}

/// The position at which a page of uploads begins. Fails with InvalidArgument if an id is given
/// with a key and can't be one. Without a key the id is ignored.
#[tactic(auto, unfolding(crate::specs::Pages::upload_marker))]
pub(crate) fn upload_marker(
    alloc: Global,
    parameters: &[Parameter],
) -> Result<Option<UploadMarker>, RequestError>
    ensures { Gives (λ x. x) result (spec.upload_marker parameters.now) }
{
    let Some(key) = value_of("key-marker", parameters) else {
        return Ok(None);
    };
    let upload = match value_of("upload-id-marker", parameters) {
        None => None,
        Some(id) => Some(UploadId::read(id).ok_or(Refusal::InvalidArgument)?),
    };
    Ok(Some(UploadMarker {
        key: Text::copy_of(alloc, key)?,
        upload,
    }))
}
