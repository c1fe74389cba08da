//! What a request comes to, and how that is answered.
ghost use Rattle.std.specs.Prelude.{◌≡◌, ◌++◌, IfOk, if◌then◌else◌, codes, []};
ghost use Rattle.sb_monitor.specs.PageAnswers.{has_body, outcome_text};
ghost use Rattle.sb_monitor.specs.HttpRefusals.{misfit_of, status_of, unless_got, unless_posted, words_of};

use crate::target::Target;
use sb_status::{ContentType, Request, Route, Status, respond};
use std::alloc::{AllocError, Global};

/// What is shown: the body of an answer, with its status.
#[derive(Drop)]
pub(crate) struct Shown {
    pub(crate) status: Status,
    pub(crate) kind: ContentType,
    pub(crate) body: Vec<u8>,
}

/// Why nothing is shown.
#[derive(Clone, Copy)]
pub(crate) enum HttpRefusal {
    BadRequest,
    TooLong,
    NotPosted,
    NotGot,
    /// A page of another site sends it.
    Foreign,
    /// It names another machine.
    OtherName,
    KeyWanted,
    NoPage,
    NoTenant,
    NoSession,
    TenantBusy,
    WorkerBusy,
    /// The server can't be told to stop.
    NoStop,
    NoScript,
}

/// What a request comes to.
#[derive(Drop)]
pub(crate) enum Outcome {
    Shown(Shown),
    Refused(HttpRefusal),
    /// Clients aren't let in yet.
    NotReady,
}

/// The head of an answer while clients aren't let in.
pub(crate) const NOT_READY: &str =
    "HTTP/1.1 503 Service Unavailable\r\nContent-Type: text/plain; charset=utf-8\r\nContent-Length: 8\r\n\
Retry-After: 1\r\nConnection: close\r\nCache-Control: no-store\r\n\r\n";

impl HttpRefusal {
    /// Why a request does not fit its target. The ends of a session and of the server and a renewal are posted, all else
    /// is got.
    pub(crate) fn of_misfit(target: Target, request: &Request<'_>) -> Option<HttpRefusal>
        ensures { result ≡ misfit_of target request.now }
    {
        match target {
            Target::Stop | Target::Page(Route::End(_) | Route::Renew(_)) => {
                HttpRefusal::unless_posted(request)
            }
            Target::Ready | Target::Page(_) => HttpRefusal::unless_got(request),
        }
    }

    fn unless_posted(request: &Request<'_>) -> Option<HttpRefusal>
        ensures { result ≡ unless_posted request.now }
    {
        if request.method == b"POST".as_slice() {
            return None;
        }
        Some(HttpRefusal::NotPosted)
    }

    fn unless_got(request: &Request<'_>) -> Option<HttpRefusal>
        ensures { result ≡ unless_got request.now }
    {
        if request.method == b"GET".as_slice() || request.method == b"HEAD".as_slice() {
            return None;
        }
        Some(HttpRefusal::NotGot)
    }

    fn status(self) -> Status
        ensures { result ≡ status_of self }
    {
        match self {
            HttpRefusal::BadRequest => Status::Malformed,
            HttpRefusal::TooLong => Status::TooLong,
            HttpRefusal::NotPosted => Status::NotPosted,
            HttpRefusal::NotGot => Status::NotAllowed,
            HttpRefusal::Foreign | HttpRefusal::OtherName => Status::Foreign,
            HttpRefusal::KeyWanted => Status::Closed,
            HttpRefusal::NoPage | HttpRefusal::NoTenant | HttpRefusal::NoSession => {
                Status::NotFound
            }
            HttpRefusal::TenantBusy | HttpRefusal::WorkerBusy => Status::Busy,
            HttpRefusal::NoStop | HttpRefusal::NoScript => Status::Failed,
        }
    }

    fn words<'a>(self) -> &'a str
        ensures { result.now ≡ words_of self }
    {
        match self {
            HttpRefusal::BadRequest => "bad request\n",
            HttpRefusal::TooLong => "too long\n",
            HttpRefusal::NotPosted => "only POST\n",
            HttpRefusal::NotGot => "only GET and HEAD\n",
            HttpRefusal::Foreign => "not from a page of another site\n",
            HttpRefusal::OtherName => "ask by 127.0.0.1, [::1] or localhost\n",
            HttpRefusal::KeyWanted => "a key is wanted\n",
            HttpRefusal::NoPage => "not found\n",
            HttpRefusal::NoTenant => "no such tenant\n",
            HttpRefusal::NoSession => "no such session\n",
            HttpRefusal::TenantBusy => "the tenant is busy\n",
            HttpRefusal::WorkerBusy => "the worker is busy\n",
            HttpRefusal::NoStop => "it can't be stopped\n",
            HttpRefusal::NoScript => "no script\n",
        }
    }
}

impl Outcome {
    /// Its answer, from the first line on.
    pub(crate) fn answer(&self, alloc: Global, has_body: bool) -> Result<Vec<u8>, AllocError>
        ensures { IfOk result (λ answer. answer.items ≡ outcome_text self.now has_body) }
    {
        match self {
            Outcome::Shown(shown) => respond(
                alloc,
                shown.status,
                shown.kind,
                shown.body.as_slice(),
                has_body,
            ),
            Outcome::Refused(why) => respond(
                alloc,
                why.status(),
                ContentType::Text,
                why.words().as_bytes(),
                has_body,
            ),
            Outcome::NotReady => not_ready(alloc, has_body),
        }
    }
}

/// The answer while clients aren't let in.
fn not_ready(alloc: Global, has_body: bool) -> Result<Vec<u8>, AllocError>
    ensures { IfOk result (λ answer. answer.items ≡ NOT_READY.now ++ (if has_body then codes "not yet\n" else [])) }
{
    let mut answer = Vec::new(alloc);
    answer.extend_from_slice(NOT_READY.as_bytes())?;
    if has_body {
        answer.extend_from_slice(b"not yet\n")?;
    }
    Ok(answer)
}

/// True if the answer to a request has a body.
pub(crate) fn has_body(request: &Request<'_>) -> bool
    ensures { result ≡ has_body request.now }
{
    request.method != b"HEAD".as_slice()
}
