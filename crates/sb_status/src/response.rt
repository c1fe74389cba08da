//! An answer, from its first line to its body.
ghost use Rattle.std.specs.Prelude.{◌≡◌, ◌++◌, IfOk, OnOk, length, if◌then◌else◌, []};
ghost use Rattle.sb_status.specs.Responses.{begin_text, head_text, kind_text, status_text};

use crate::fragment::push_number;
use std::alloc::{AllocError, Global};

/// How a request went.
#[derive(Clone, Copy)]
pub enum Status {
    Found,
    /// It is done as soon as it can be.
    Accepted,
    Malformed,
    /// The right key is missing.
    Closed,
    NotFound,
    /// A page of another server asks for it.
    Foreign,
    /// Only GET and HEAD are answered.
    NotAllowed,
    /// Only POST is.
    NotPosted,
    /// A session has a transaction.
    Busy,
    TooLong,
    /// The tenant has no script.
    Failed,
}

/// What a body is.
#[derive(Clone, Copy)]
pub enum ContentType {
    Page,
    Samples,
    Text,
}

/// The answer where memory runs out.
pub const NO_MEMORY: &str =
    "HTTP/1.1 503 Service Unavailable\r\nContent-Type: text/plain\r\nContent-Length: 14\r\n\
Connection: close\r\n\r\nout of memory\n";

/// An answer with its body, or, as HEAD wants it, with the length of its body alone. Error: out of memory.
pub fn respond(
    alloc: Global,
    status: Status,
    kind: ContentType,
    body: &[u8],
    has_body: bool,
) -> Result<Vec<u8>, AllocError>
    ensures { IfOk result (λ answer. answer.items ≡
        head_text status kind (length body.now) ++ (if has_body then body.now else [])) }
{
    let mut out = Vec::new(alloc);
    push_head(&mut out, status, kind, body.len() as u64)?;
    if has_body {
        out.extend_from_slice(body)?;
    }
    Ok(out)
}

/// The lines before the body.
fn push_head(
    out: &mut Vec<u8>,
    status: Status,
    kind: ContentType,
    length: u64,
) -> Result<(), AllocError>
    ensures { OnOk result (out.new.items ≡ out.old.items ++ head_text status kind length) }
{
    push_kind(out, status, kind)?;
    out.extend_from_slice(b"\r\nContent-Length: ")?;
    push_number(out, length)?;
    out.extend_from_slice(ALWAYS.as_bytes())
}

/// The first line, and the header that says what the body is.
fn push_kind(out: &mut Vec<u8>, status: Status, kind: ContentType) -> Result<(), AllocError>
    ensures { OnOk result (out.new.items ≡ out.old.items ++ begin_text status kind) }
{
    out.extend_from_slice(b"HTTP/1.1 ")?;
    out.extend_from_slice(status_line(status).as_bytes())?;
    out.extend_from_slice(b"\r\nContent-Type: ")?;
    out.extend_from_slice(kind_name(kind).as_bytes())
}

/// What every head ends with: nothing is kept, and a page fetches and runs nothing.
const ALWAYS: &str =
    "\r\nConnection: close\r\nCache-Control: no-store\r\nX-Content-Type-Options: nosniff\r\n\
Content-Security-Policy: default-src 'none'; style-src 'unsafe-inline'\r\n\r\n";

/// The status with its reason, and the header that belongs to it.
fn status_line<'a>(status: Status) -> &'a str
    ensures { result.now ≡ status_text status }
{
    match status {
        Status::Found => "200 OK",
        Status::Accepted => "202 Accepted",
        Status::Malformed => "400 Bad Request",
        Status::Closed => "401 Unauthorized\r\nWWW-Authenticate: Basic realm=\"filgwesha\"",
        Status::Foreign => "403 Forbidden",
        Status::NotFound => "404 Not Found",
        Status::NotAllowed => "405 Method Not Allowed\r\nAllow: GET, HEAD",
        Status::NotPosted => "405 Method Not Allowed\r\nAllow: POST",
        Status::Busy => "409 Conflict",
        Status::TooLong => "431 Request Header Fields Too Large",
        Status::Failed => "500 Internal Server Error",
    }
}

fn kind_name<'a>(kind: ContentType) -> &'a str
    ensures { result.now ≡ kind_text kind }
{
    match kind {
        ContentType::Page => "text/html; charset=utf-8",
        ContentType::Samples => "text/plain; version=0.0.4; charset=utf-8",
        ContentType::Text => "text/plain; charset=utf-8",
    }
}
