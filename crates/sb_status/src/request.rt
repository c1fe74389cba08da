//! The head of a request.
ghost use Rattle.std.specs.Prelude.{◌≡◌, ◌<◌, ◌↔◌, All, length, map, option_copied};
ghost use Rattle.sb_status.specs.Requests.{HasFirst, IfWhole, IsHeadOf, head_limit, header_limit};
ghost use Rattle.httparse.specs.Grammar.{HasNoRequest};
ghost use Rattle.httparse.specs.Spans.{IsHeaderWithin, RequestOverflows, header_bytes};

use httparse::Status;
use httparse::spans::{EMPTY_HEADER_SPAN, HeaderSpan, parse_request};

/// The most bytes that are read of a request.
pub const HEAD_LIMIT: usize = 8192;

/// The most headers of a request.
const HEADERS: usize = 64;

/// A request: its method, what it asks for, and what it says of who asks.
#[derive(Clone, Copy)]
pub struct Request<'a> {
    pub method: &'a [u8],
    pub target: &'a [u8],
    pub authorization: Option<&'a [u8]>,
    /// The page that a browser sends it from.
    pub origin: Option<&'a [u8]>,
}

/// What has come of a request.
#[derive(Clone, Copy)]
pub enum Incoming<'a> {
    /// Its head isn't whole.
    Partial,
    /// There are more bytes than are read.
    TooLong,
    /// It is no head of a request, or has too many headers.
    Malformed,
    Whole(Request<'a>),
}

/// Reads the request that these bytes begin with.
pub fn read_request(bytes: &[u8]) -> Incoming<'_>
    ensures too_long { (result ≡ Incoming.TooLong) ↔ (head_limit < length bytes.now) }
    ensures whole { IfWhole result (IsHeadOf bytes.now) }
    ensures partial { result ≡ Incoming.Partial → HasNoRequest bytes.now }
    ensures malformed { result ≡ Incoming.Malformed → RequestOverflows header_limit bytes.now }
{
    if bytes.len() > HEAD_LIMIT {
        return Incoming::TooLong;
    }
    let mut headers = [EMPTY_HEADER_SPAN; HEADERS];
    match parse_request(bytes, &mut headers) {
        Ok(Status::Complete(spans)) => {
            let headers = &headers[..spans.headers];
            Incoming::Whole(Request {
                method: spans.method.of(bytes),
                target: spans.path.of(bytes),
                authorization: header(bytes, headers, b"authorization"),
                origin: header(bytes, headers, b"origin"),
            })
        }
        Ok(Status::Partial) => Incoming::Partial,
        Err(_) => Incoming::Malformed,
    }
}

/// The value of the first header of that name.
fn header<'a>(bytes: &'a [u8], headers: &[HeaderSpan], wanted: &[u8]) -> Option<&'a [u8]>
    requires { All (IsHeaderWithin (length bytes.now)) headers.now }
    ensures { HasFirst wanted.now (map (header_bytes bytes.now) headers.now) (option_copied result) }
{
    for header in headers {
        if header.name.of(bytes).eq_ignore_ascii_case(wanted) {
            return Some(header.value.of(bytes));
        }
    }
    None
}
