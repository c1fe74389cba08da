//! Where sessions of a host are opened.
ghost use Rattle.std.specs.Prelude.{◌≡◌, false, Err, IfOk, MatchResult, Ok};
ghost use Rattle.sb_connection.specs.Callers.{IsNewcomer};
ghost use Rattle.sb_connection.specs.Conversation.{hosting, tenant_at};
ghost use Rattle.sb_desk.specs.Calls.{Attached};

use crate::admission::Doorkeeper;
use crate::caller::Absence;
use crate::first_line::{SessionName, tenant_at};
use sb_desk::{AttachError, Hosting};
use std::alloc::Global;
use std::marker::{Model, PhantomData};
use std::sync::Wait;

/// Permission to open a session: no key is asked for, or a key of the tenant was brought.
#[derive(Drop)]
pub(crate) struct Pass<D: Doorkeeper> {
    named: SessionName,
    by: PhantomData<D>,
}

impl<D: Doorkeeper> Model for Pass<D> {
    ghost use Rattle.sb_connection.specs.Passes.{IsAdmissible};
    ghost use Rattle.sb_connection.specs.declared.first_line.SessionName.{SessionName};

    ghost Value = { SessionName };

    ghost view = { λ p. p.named };

    ghost invariant = { λ p. IsAdmissible D.policy p.named };
}

impl<D: Doorkeeper> Pass<D> {
    /// The permission of anybody, if no key is asked for.
    pub(crate) fn of_anybody(named: SessionName) -> Pass<D>
        requires { D.policy.keyed ≡ false }
        ensures { result ≡ named }
    {
        Pass {
            named,
            by: PhantomData,
        }
    }

    /// The session.
    pub(crate) fn named(&self) -> SessionName
        ensures { result ≡ self.now }
    {
        self.named
    }

    /// The permission of a client that has brought this key.
    pub(crate) fn by_key(named: SessionName, _key: &[u8]) -> Pass<D>
        requires { D.policy.admits named.tenant _key.now }
        ensures { result ≡ named }
    {
        Pass {
            named,
            by: PhantomData,
        }
    }
}

/// A host whose sessions are opened only by a pass.
#[derive(Drop)]
pub(crate) struct Entrance<H: Hosting> {
    host: H,
}

impl<H: Hosting> Model for Entrance<H> {
    ghost Value = { H };

    ghost view = { λ e. e.host };
}

impl<H: Hosting> Entrance<H> {
    pub(crate) fn new(host: H) -> Entrance<H>
        ensures { result ≡ host }
    {
        Entrance { host }
    }

    /// Opens the session of this pass on a host whose first tenant has this number.
    pub(crate) fn open<T: Wait, D: Doorkeeper>(
        &self,
        rt: &T,
        alloc: Global,
        first: u32,
        pass: Pass<D>,
    ) -> Result<H::Session, AttachError>
        ensures { MatchResult result
            (λ opened. Attached (H.tenants self.now) (tenant_at (hosting first (H.tenants self.now)) pass.tenant) pass.session
            (Ok (H.Session.seen opened)))
            (λ e. Attached (H.tenants self.now) (tenant_at (hosting first (H.tenants self.now)) pass.tenant) pass.session (Err e)) }
    {
        let Pass { named, by: _ } = pass;
        let tenant = tenant_at(first, self.host.tenants(), named.tenant);
        self.host.attach(rt, alloc, tenant, named.session)
    }

    /// Opens a session again that was open in the volume before.
    pub(crate) fn reopen<T: Wait>(
        &self,
        rt: &T,
        alloc: Global,
        absence: Absence,
    ) -> Result<H::Session, AttachError>
        ensures { IfOk result (λ opened. IsNewcomer absence.tenant absence.session (H.Session.seen opened)) }
    {
        let session = u32::from(absence.session.number());
        self.host.attach(rt, alloc, absence.tenant, session)
    }
}
