//! Where a request comes from, and which machine it names.
ghost use Rattle.std.specs.Prelude.{◌≡◌, ◌⊎◌, All, length, map, MatchOption, option_copied};
ghost use Rattle.std.specs.Char.{is_ascii_digit};
ghost use Rattle.std.specs.List.{list_all};
ghost use Rattle.httparse.specs.Grammar.{HasNoRequest};
ghost use Rattle.httparse.specs.Spans.{IsHeaderWithin, RequestOverflows, header_bytes};
ghost use Rattle.sb_status.specs.Requests.{HasFirst, header_limit};
ghost use Rattle.sb_monitor.specs.Senders.{IsSentBy, is_at, is_here, is_own, is_port, names_here, stranger_of};

use crate::http_outcome::HttpRefusal;
use httparse::Status;
use httparse::spans::{EMPTY_HEADER_SPAN, HeaderSpan, parse_request};

/// The most headers of a request.
const HEADERS: usize = 64;

/// What the headers of a request say of where it comes from and goes to.
#[derive(Clone, Copy)]
pub(crate) struct Sender<'a> {
    /// The machine that it names, with the port or without.
    pub(crate) host: Option<&'a [u8]>,
    /// The page that a browser sends it from.
    pub(crate) origin: Option<&'a [u8]>,
    /// How a browser calls the site of that page.
    pub(crate) site: Option<&'a [u8]>,
}

impl<'a> Sender<'a> {
    /// That of the request that these bytes begin with, if they do.
    pub(crate) fn read(bytes: &'a [u8]) -> Option<Sender<'a>>
        ensures { MatchOption result (HasNoRequest bytes.now ⊎ RequestOverflows header_limit bytes.now)
            (IsSentBy bytes.now) }
    {
        let mut headers = [EMPTY_HEADER_SPAN; HEADERS];
        match parse_request(bytes, &mut headers) {
            Ok(Status::Complete(spans)) => {
                let headers = &headers[..spans.headers];
                Some(Sender {
                    host: header(bytes, headers, b"host"),
                    origin: header(bytes, headers, b"origin"),
                    site: header(bytes, headers, b"sec-fetch-site"),
                })
            }
            Ok(Status::Partial) => None,
            Err(_) => None,
        }
    }

    /// Why it is shown nothing, if it isn't.
    pub(crate) fn refusal(&self) -> Option<HttpRefusal>
        ensures { result ≡ stranger_of self.now }
    {
        if !names_here(self.host) {
            return Some(HttpRefusal::OtherName);
        }
        if self.origin.is_some() || !is_own(self.site) {
            return Some(HttpRefusal::Foreign);
        }
        None
    }
}

/// True if a request names this machine, or none.
fn names_here(host: Option<&[u8]>) -> bool
    ensures { result ≡ names_here (option_copied host.entry) }
{
    match host {
        Some(host) => is_here(host),
        None => true,
    }
}

fn is_here(host: &[u8]) -> bool
    ensures { result ≡ is_here host.now }
{
    is_at(host, b"localhost") || is_at(host, b"127.0.0.1") || is_at(host, b"[::1]")
}

/// True if this is the name, without a port or with one.
fn is_at(host: &[u8], name: &[u8]) -> bool
    ensures { result ≡ is_at name.now host.now }
{
    match host.strip_prefix(name) {
        Some(rest) => is_port(rest),
        None => false,
    }
}

/// True if this is nothing, or a colon and digits.
fn is_port(text: &[u8]) -> bool
    ensures { result ≡ is_port text.now }
{
    match text.split_first() {
        Some((colon, digits)) => *colon == b':' && are_digits(digits),
        None => true,
    }
}

fn are_digits(bytes: &[u8]) -> bool
    ensures { result ≡ list_all is_ascii_digit bytes.now }
{
    for byte in bytes {
        if !byte.is_ascii_digit() {
            return false;
        }
    }
    true
}

/// True if no page of another site sends a request, as far as a browser tells.
fn is_own(site: Option<&[u8]>) -> bool
    ensures { result ≡ is_own (option_copied site.entry) }
{
    match site {
        Some(site) => site == b"same-origin".as_slice() || site == b"none".as_slice(),
        None => true,
    }
}

/// The value of the first header of that name.
fn header<'a>(bytes: &'a [u8], headers: &[HeaderSpan], wanted: &[u8]) -> Option<&'a [u8]>
    requires { All (IsHeaderWithin (length bytes.now)) headers.now }
    ensures { HasFirst wanted.now (map (header_bytes bytes.now) headers.now) (option_copied result) }
{
    for header in headers {
        if header.name.of(bytes).eq_ignore_ascii_case(wanted) {
            return Some(header.value.of(bytes));
        }
    }
    None
}
