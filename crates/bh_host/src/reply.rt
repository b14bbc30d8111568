ghost use Rattle.std.specs.Prelude.{◌≡◌, ◌++◌, ℕ, List, [], codes, length, Ok, Err, IfOk};
ghost use Rattle.std.specs.Str.{bytes_eq};
ghost use Rattle.bh_event.specs.Events.{order_of};
ghost use Rattle.bh_http.specs.Answers.{response_view, refused};
ghost use Rattle.bh_http.specs.Responses.{response_text, refusal_text};
ghost use Rattle.bh_http.specs.Views.{with_body};
ghost use Rattle.bh_docs.specs.Documents.{usage_view};
ghost use Rattle.bh_machine.specs.Machine.{RequestRead};
ghost use Rattle.bh_model.specs.Operations.{Object, Used};
ghost use Rattle.bh_host.specs.Offers.{command_answer_view};
ghost use Rattle.bh_types.specs.Rejections.{plain};
ghost use Rattle.std.specs.String.{string_bytes};
ghost use Rattle.bh_host.specs.Replies as spec;
ghost use Rattle.bh_host.specs.Turns.{TellsLine};

use crate::answers::found;
use crate::lists::names_end;
use crate::offer::CommandAnswer;
use bh_docs::reply::{Usage, error_document};
use bh_event::event::Command;
use bh_http::encode::response_bytes;
use bh_http::fixed::{clock_out_of_range, service_unavailable};
use bh_http::request::Head;
use bh_http::response::{Response, has_document};
use bh_http::values::{Allow, ContentRange};
use bh_operation::allow::allow_of;
use bh_operation::path_of;
use bh_operation::routes::Routes;
use bh_storage::answer::ObjectHead;
use bh_storage::error::{StepError, Trouble};
use bh_storage::report::{StoreReport, SweepReport};
use bh_types::range::RangePlan;
use bh_types::refusal::Refusal;
use bh_types::rejection::{Detail, Rejection};
use std::alloc::{AllocError, Global};

/// The reply to an event. The fixed texts allocate nothing.
#[derive(Drop)]
pub enum Reply {
    /// The clock's reading is above its limit.
    ClockOutOfRange(Caller),
    /// Memory or the store failed: ServiceUnavailable to a request, Unavailable to an operator. The
    /// bytes don't reveal which failure it was.
    Wanting(Caller, Trouble),
    /// The text of an answer or of a refusal.
    Text(Vec<u8>),
    /// The head of a response, and then this many bytes of an object. They were all read before the
    /// transaction ended.
    Gathered(Vec<u8>, u64),
}

/// Who sent an event, which decides the form of a fixed text.
#[derive(Clone, Copy, PartialEq, Eq)]
pub enum Caller {
    Request,
    Operator,
}

impl Reply {
    /// The bytes to send: an HTTP/1.1 response (RFC 9112) to a request, or a line without its line
    /// feed to an operator.
    pub fn bytes(&self) -> &[u8]
        ensures { result.now ≡ spec.reply_bytes self.now }
    {
        match self {
            Reply::ClockOutOfRange(caller) => clock_bytes(*caller),
            Reply::Wanting(caller, _) => wanting_bytes(*caller),
            Reply::Text(bytes) | Reply::Gathered(bytes, _) => bytes,
        }
    }

    /// The failure, if memory or the store failed.
    pub fn trouble(&self) -> Option<Trouble>
        ensures { result ≡ spec.reply_trouble self.now }
    {
        match self {
            Reply::Wanting(_, trouble) => Some(*trouble),
            Reply::ClockOutOfRange(_) | Reply::Text(_) | Reply::Gathered(..) => None,
        }
    }
}

fn clock_bytes(caller: Caller) -> &'static [u8]
    ensures { result.now ≡ spec.clock_text caller }
{
    match caller {
        Caller::Request => clock_out_of_range(),
        Caller::Operator => b"30 ClockOutOfRange",
    }
}

fn wanting_bytes(caller: Caller) -> &'static [u8]
    ensures { result.now ≡ spec.wanting_text caller }
{
    match caller {
        Caller::Request => service_unavailable(),
        Caller::Operator => b"48 Unavailable",
    }
}

/// The response that refuses a request with this head, whatever its body.
#[tactic(auto, unfolding(crate::specs::Replies::text))]
pub fn refused_request_text(
    alloc: Global,
    routes: &Routes,
    head: &Head,
    rejection: Rejection,
) -> Result<Vec<u8>, AllocError>
    ensures { (body : List ℕ) → IfOk result (λ bytes. bytes.items
        ≡ spec.text (RequestRead (Ok (with_body head.now body))) (Err rejection)) }
{
    let response = refusal_to(alloc, routes, head.target, rejection)?;
    sent_text(alloc, head.method, response)
}

/// The response head before an object's bytes, or before a range of them. `count` bytes follow.
pub fn found_text(
    alloc: Global,
    head: ObjectHead,
    range: RangePlan,
    count: u64,
) -> Result<Vec<u8>, AllocError>
    ensures { (bytes : List ℕ) → count ≡ length bytes → IfOk result (λ text. text.items ≡ response_text
        (record (spec.response_to (Object head.id head.size range bytes (string_bytes head.checksum))) { body = [] })) }
{
    let response = found(alloc, head, range, count);
    response_bytes(alloc, &response)
}

/// The bytes of a response to a request of this method.
pub fn sent_text(alloc: Global, method: &[u8], response: Response) -> Result<Vec<u8>, AllocError>
    ensures { IfOk result (λ bytes. bytes.items ≡ response_text (spec.sent_for method.now (response_view response))) }
{
    let sent = sent_for(alloc, method, response);
    response_bytes(alloc, &sent)
}

/// Whether a method's response is a head alone.
pub fn is_head(method: &[u8]) -> bool
    ensures { result ≡ bytes_eq method.now (codes "HEAD") }
{
    matches!(method, b"HEAD")
}

/// The response to this method: for HEAD its head alone (RFC 9110, section 9.3.2).
fn sent_for(alloc: Global, method: &[u8], response: Response) -> Response
    ensures { response_view result ≡ spec.sent_for method.now (response_view response) }
{
    if is_head(method) {
        let mut head = response;
        head.body = Vec::new(alloc);
        head
    } else {
        response
    }
}

/// The response that refuses a request with this target.
fn refusal_to(
    alloc: Global,
    routes: &Routes,
    target: &[u8],
    rejection: Rejection,
) -> Result<Response, AllocError>
    ensures { IfOk result (λ response. response_view response ≡ spec.refusal_to target.now rejection) }
{
    let mut response = response_with_document(alloc, target, rejection.refusal)?;
    response.content_range = range_told(rejection.detail);
    response.allow = allow_told(routes, target, rejection);
    response.delete_marker = marker_told(rejection.detail);
    Ok(response)
}

/// The response to a refused request, with its document if the refusal has one.
fn response_with_document(
    alloc: Global,
    target: &[u8],
    refusal: Refusal,
) -> Result<Response, AllocError>
    ensures { IfOk result (λ response. response_view response ≡ refused refusal (spec.document_for target.now refusal)) }
{
    if !has_document(refusal) {
        return Ok(Response::bare_refusal(alloc, refusal));
    }
    let path = String::from_utf8_lossy(alloc, path_of(target))?;
    let document = error_document(alloc, refusal.code(), path.as_str())?;
    Ok(Response::refused(alloc, refusal, document.into_bytes()))
}

/// The methods of the Allow header field in a refusal of this target (RFC 9110, section 10.2.1).
fn allow_told(routes: &Routes, target: &[u8], rejection: Rejection) -> Option<Allow>
    ensures { result ≡ spec.allow_told target.now rejection.refusal rejection.detail }
{
    match (rejection.refusal, rejection.detail) {
        (_, Detail::NamedMarker | Detail::UndatedMarker) => Some(Allow::Marker),
        (Refusal::MethodNotAllowed, _) => allow_of(routes, target),
        _ => None,
    }
}

/// Whether the detail is a delete marker that the response names: that of an operation on objects.
fn marker_told(detail: Detail) -> bool
    ensures { result ≡ spec.marker_told detail }
{
    matches!(detail, Detail::CurrentMarker | Detail::NamedMarker)
}

/// The object's size, if the requested range has none of its bytes.
fn range_told(detail: Detail) -> Option<ContentRange>
    ensures { result ≡ spec.range_told detail }
{
    match detail {
        Detail::ObjectSize(size) => Some(ContentRange::Unsatisfied { size }),
        _ => None,
    }
}

/// The response that refuses bytes that are not a request.
#[tactic(auto, unfolding(crate::specs::Replies::text))]
pub fn unread_text(alloc: Global, routes: &Routes, refusal: Refusal) -> Result<Vec<u8>, AllocError>
    ensures { IfOk result (λ bytes. bytes.items ≡ spec.text (RequestRead (Err refusal)) (Err (plain refusal))) }
{
    let response = refusal_to(alloc, routes, b"", Rejection::from(refusal))?;
    response_bytes(alloc, &response)
}

/// An operator's reply: the line that tells what was done, or its refusal.
pub fn order_text(
    alloc: Global,
    outcome: Result<String, StepError<Refusal>>,
) -> Result<Vec<u8>, Trouble>
    ensures { IfOk result (λ bytes. TellsLine outcome bytes.items) }
{
    match outcome {
        Ok(line) => Ok(line.into_bytes()),
        Err(StepError::Refused(refusal)) => Ok(refusal_line(alloc, refusal)?.into_bytes()),
        Err(StepError::Failed(trouble)) => Err(trouble),
    }
}

/// What a command did, and the values of its answer.
pub fn command_line(
    alloc: Global,
    command: &Command,
    answer: &CommandAnswer,
) -> Result<String, AllocError>
    ensures { IfOk result (λ text. string_bytes text
        ≡ spec.line_of (order_of command.now) ++ spec.line_end (command_answer_view answer.now)) }
{
    let line = line_of(alloc, command)?;
    let end = line_end(alloc, answer)?;
    format!(in alloc; "{line}{end}")
}

fn line_end(alloc: Global, answer: &CommandAnswer) -> Result<String, AllocError>
    ensures { IfOk result (λ text. string_bytes text ≡ spec.line_end (command_answer_view answer.now)) }
{
    match answer {
        CommandAnswer::Done => Ok(String::new(alloc)),
        CommandAnswer::Used(usage) => used_end(alloc, usage),
        CommandAnswer::Keys(names) => names_end(alloc, names),
    }
}

fn used_end(alloc: Global, usage: &Usage) -> Result<String, AllocError>
    ensures { IfOk result (λ text. string_bytes text ≡ spec.line_end (Used (usage_view usage.now))) }
{
    let Usage { bytes, quota, .. } = usage;
    format!(in alloc; " bytes {bytes} quota {quota}")
}

fn line_of(alloc: Global, command: &Command) -> Result<String, AllocError>
    ensures { IfOk result (λ text. string_bytes text ≡ spec.line_of (order_of command.now)) }
{
    match command {
        Command::TenantAdd { tenant, .. } => format!(in alloc; "tenant {tenant}"),
        Command::Quota { tenant, quota } => format!(in alloc; "quota {tenant} {quota}"),
        Command::TenantRemove { tenant, .. } => format!(in alloc; "removed {tenant}"),
        Command::KeyAdd { tenant, name, .. } => format!(in alloc; "key {tenant}${name}"),
        Command::KeyRemove { tenant, name } => format!(in alloc; "removed {tenant}${name}"),
        Command::Usage { tenant } => format!(in alloc; "usage {tenant}"),
        Command::Keys { tenant } => format!(in alloc; "keys {tenant}"),
    }
}

/// A refusal's number and code.
pub fn refusal_line(alloc: Global, refusal: Refusal) -> Result<String, AllocError>
    ensures { IfOk result (λ text. string_bytes text ≡ refusal_text refusal) }
{
    let number = refusal.number();
    let code = refusal.code();
    format!(in alloc; "{number} {code}")
}

/// An operator's reply to a sweep: what was removed, and whether more is due.
pub fn sweep_line(alloc: Global, report: SweepReport) -> Result<String, AllocError>
    ensures { IfOk result (λ text. string_bytes text ≡ spec.sweep_text report) }
{
    let uploads = report.uploads;
    let blocks = report.blocks;
    let end = if report.complete {
        "complete"
    } else {
        "partial"
    };
    format!(in alloc; "sweep uploads {uploads} blocks {blocks} {end}")
}

/// An operator's reply to a report: the numbers and sizes of the stored blocks.
pub fn report_line(alloc: Global, report: StoreReport) -> Result<String, AllocError>
    ensures { IfOk result (λ text. string_bytes text ≡ spec.report_text report) }
{
    let StoreReport {
        blocks,
        stored,
        referred,
        clashes,
    } = report;
    format!(in alloc; "blocks {blocks} stored {stored} referred {referred} clashes {clashes}")
}
