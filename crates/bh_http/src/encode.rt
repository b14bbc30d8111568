ghost use Rattle.std.specs.Prelude.{◌≡◌, codes, option_map, IfOk, OnOk};
ghost use Rattle.std.specs.String.{string_bytes};
ghost use Rattle.bh_types.specs.Ids.{version_text};
ghost use Rattle.bh_types.specs.Moments;
ghost use Rattle.bh_http.specs.Answers.{response_view};
ghost use Rattle.bh_http.specs.Lines.{Adds, HasText, text_by};
ghost use Rattle.bh_http.specs.Responses as spec;

use crate::response::Response;
use bh_types::id::VersionId;
use bh_types::moment::{Moment, moment_text};
use bh_types::refusal::Refusal;
use http::StatusCode;
use std::alloc::{AllocError, Global};
use std::fmt::Display;

/// The buffer's space for the head of a response, in bytes, so that one allocation has room for the
/// whole response.
const HEAD_ROOM: usize = 512;

/// The bytes of a response: status line, header fields, an empty line, the body (RFC 9112, section
/// 2.1). Fails if memory runs out.
pub fn response_bytes(alloc: Global, response: &Response) -> Result<Vec<u8>, AllocError>
    ensures { IfOk result (λ bytes. bytes.items ≡ spec.response_text (response_view response.now)) }
{
    let room = response.body.len().saturating_add(HEAD_ROOM);
    let mut head = String::with_capacity(alloc, room)?;
    push_status(&mut head, response.status)?;
    push_fields(alloc, &mut head, response)?;
    head.push_str("\r\n")?;
    let mut bytes = head.into_bytes();
    bytes.extend_from_slice(response.body.as_slice())?;
    Ok(bytes)
}

fn push_status(out: &mut String, status: StatusCode) -> Result<(), AllocError>
    ensures { OnOk result (Adds out.old out.new (spec.status_line status)) }
{
    write!(out, "HTTP/1.1 {status}\r\n")
}

fn push_fields(alloc: Global, out: &mut String, response: &Response) -> Result<(), AllocError>
    ensures { OnOk result (Adds out.old out.new (spec.fields_text (response_view response.now))) }
{
    push_content_fields(out, response)?;
    push_object_fields(alloc, out, response)?;
    push_last_fields(out, response)
}

fn push_content_fields(out: &mut String, response: &Response) -> Result<(), AllocError>
    ensures { OnOk result (Adds out.old out.new
        (spec.lines_text (spec.content_fields (response_view response.now)))) }
{
    push_field(out, "content-type", response.content_type)?;
    push_field(out, "content-length", response.content_length)?;
    push_field(out, "content-range", response.content_range)?;
    push_when(out, "accept-ranges", "bytes", response.accepts_ranges)?;
    push_field(out, "allow", response.allow)
}

fn push_object_fields(
    alloc: Global,
    out: &mut String,
    response: &Response,
) -> Result<(), AllocError>
    ensures { OnOk result (Adds out.old out.new
        (spec.lines_text (spec.object_fields (response_view response.now)))) }
{
    let version_id = version_id_text(alloc, response.version_id)?;
    let abort_date = abort_date_text(alloc, response.abort_date)?;
    push_field(out, "x-amz-checksum-sha256", response.checksum.as_deref())?;
    push_field(out, "x-amz-version-id", version_id.as_deref())?;
    push_when(out, "x-amz-delete-marker", "true", response.delete_marker)?;
    push_field(out, "x-amz-abort-date", abort_date.as_deref())
}

fn push_last_fields(out: &mut String, response: &Response) -> Result<(), AllocError>
    ensures { OnOk result (Adds out.old out.new
        (spec.lines_text (spec.last_fields (response_view response.now)))) }
{
    push_refusal(out, response.refusal)?;
    push_field(out, "connection", Some("close"))
}

fn version_id_text(alloc: Global, id: Option<VersionId>) -> Result<Option<String>, AllocError>
    ensures { IfOk result (λ text. option_map string_bytes text ≡ option_map version_text id) }
{
    match id {
        Some(id) => Ok(Some(id.print(alloc)?)),
        None => Ok(None),
    }
}

fn abort_date_text(alloc: Global, date: Option<Moment>) -> Result<Option<String>, AllocError>
    ensures { IfOk result (λ text.
        option_map string_bytes text ≡ option_map Moments.moment_text date) }
{
    match date {
        Some(date) => Ok(Some(moment_text(alloc, date)?)),
        None => Ok(None),
    }
}

fn push_refusal(out: &mut String, refusal: Option<Refusal>) -> Result<(), AllocError>
    ensures { OnOk result (Adds out.old out.new
        (spec.field_line (codes "x-refusal", option_map spec.refusal_text refusal))) }
{
    match refusal {
        Some(refusal) => {
            let number = refusal.number();
            let code = refusal.code();
            write!(out, "x-refusal: {number} {code}\r\n")
        }
        None => Ok(()),
    }
}

/// Adds the line of a field if a test holds.
fn push_when(out: &mut String, name: &str, value: &str, test: bool) -> Result<(), AllocError>
    ensures { OnOk result (Adds out.old out.new
        (spec.field_line (name.now, spec.when test value.now))) }
{
    push_field(out, name, test.then_some(value))
}

/// Adds the line of a field, if it has a value.
fn push_field<T: Display + Drop>(
    out: &mut String,
    name: &str,
    value: Option<T>,
) -> Result<(), AllocError>
    requires { HasText T.output }
    ensures { OnOk result (Adds out.old out.new
        (spec.field_line (name.now, option_map (text_by T.output) value))) }
{
    if let Some(value) = value {
        write!(out, "{name}: {value}\r\n")?;
    }
    Ok(())
}
