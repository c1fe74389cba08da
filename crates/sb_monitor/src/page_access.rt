//! Whose key opens which page.
ghost use Rattle.std.specs.Prelude.{◌≡◌, IfOk, IsFalse, IsTrue, option_copied, true};
ghost use Rattle.sb_monitor.specs.PageAccess.{IsGuarded, Opens, OpensBy};
ghost use Rattle.sb_monitor.specs.Targets.{page_of, wants_key};

use crate::target::Target;
use sb_connection::Admission;
use sb_keys::STATUS;
use sb_status::{Credentials, Request, Route, number};
use std::alloc::{AllocError, Global};
use std::sync::Wait;

/// True if no key is wanted, or the request has a key that opens its target.
pub(crate) fn is_let_in<A: Admission, T: Wait>(
    rt: &T,
    alloc: Global,
    admission: &A,
    target: Target,
    request: &Request<'_>,
) -> Result<bool, AllocError>
    ensures guarded { IfOk result (λ let_in. IsTrue let_in
        → IsGuarded (wants_key (A.wants admission.now) target) (A.admits admission.now) (page_of target)
        (option_copied request.now.authorization)) }
    ensures wanted { IfOk result (λ let_in. IsFalse let_in → wants_key (A.wants admission.now) target ≡ true) }
{
    match target {
        Target::Ready => Ok(true),
        Target::Stop => is_guest(rt, alloc, admission, Route::Host, request),
        Target::Page(route) => is_guest(rt, alloc, admission, route, request),
    }
}

/// True if no key is wanted, or the request has a key that opens the page.
fn is_guest<A: Admission, T: Wait>(
    rt: &T,
    alloc: Global,
    admission: &A,
    route: Route,
    request: &Request<'_>,
) -> Result<bool, AllocError>
    ensures guarded { IfOk result (λ let_in. IsTrue let_in
        → IsGuarded (A.wants admission.now) (A.admits admission.now) route (option_copied request.now.authorization)) }
    ensures wanted { IfOk result (λ let_in. IsFalse let_in → A.wants admission.now ≡ true) }
{
    if !admission.wants_key() {
        return Ok(true);
    }
    is_opened(rt, alloc, admission, route, request.authorization)
}

/// True if a header brings a key that opens the page.
fn is_opened<A: Admission, T: Wait>(
    rt: &T,
    alloc: Global,
    admission: &A,
    route: Route,
    header: Option<&[u8]>,
) -> Result<bool, AllocError>
    ensures { IfOk result (λ opened. IsTrue opened → Opens (A.admits admission.now) route (option_copied header.entry)) }
{
    let Some(value) = header else {
        return Ok(false);
    };
    match Credentials::read(alloc, value)? {
        Some(credentials) => Ok(admits(rt, admission, route, &credentials)),
        None => Ok(false),
    }
}

/// True if the key is one of whom the page belongs to, and the user is named so.
fn admits<A: Admission, T: Wait>(
    rt: &T,
    admission: &A,
    route: Route,
    credentials: &Credentials,
) -> bool
    ensures { IsTrue result → OpensBy (A.admits admission.now) route credentials.now.text.items credentials.now.colon }
{
    match route {
        Route::Tenant(tenant) | Route::Dump(tenant) | Route::Renew(tenant) => {
            admits_to(rt, admission, tenant, credentials)
        }
        Route::End(ended) => admits_to(rt, admission, ended.tenant, credentials),
        _ => {
            credentials.user() == b"status".as_slice()
                && admission.admits(rt, STATUS, credentials.key())
        }
    }
}

/// True if the key is one of the tenant's, and the user is named by its number.
fn admits_to<A: Admission, T: Wait>(
    rt: &T,
    admission: &A,
    tenant: u32,
    credentials: &Credentials,
) -> bool
    ensures { IsTrue result
        → OpensBy (A.admits admission.now) (Route.Tenant tenant) credentials.now.text.items credentials.now.colon }
{
    number(credentials.user()) == Some(tenant) && admission.admits(rt, tenant, credentials.key())
}
