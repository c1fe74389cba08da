//! What a server works with, and how it serves.
ghost use Rattle.std.specs.Prelude.{◌≡◌, ◌<◌, ◌≤◌, [], IfErr, IfOk, OnOk, None, Ok, false, is_ok, true};
ghost use Rattle.sb_monitor.specs.Listening.{TellsPort};
ghost use Rattle.sb_server.specs.Policies.{anyone, policy};
ghost use Rattle.sb_server.specs.Renewals.{AreLeft};
ghost use Rattle.starhost.specs.Plains.{EndsPlainly, IsPlainServer, IsUnheard, ServesPlainly};
ghost use Rattle.sb_words.specs.declared.renew_policy.RenewPolicy.TheVariants as policies;

use crate::fault::ProgramFault;
use crate::part_faults::{of_backup, unheard};
use crate::server_end::{OUT_OF_MEMORY, ServerEnd, unserved, with_earlier};
use crate::system::System;
use crate::terms::Plan;
use sb_backup::{
    BackupError, Folder, FolderLock, FolderScripts, ScriptFiles, TenantSaver, load_folder,
};
use sb_host::{Renewing, Stub};
use sb_monitor::{
    Chore, EventLog, Housekeeping, IdleRenewals, LongStop, NoChore, Pages, RenewalLimits,
    RunningSteps, ServerControls, StatusPort, Supervisor, TenantRenewals, listen, memory_file,
    serve_beside, work_beside,
};
use sb_server::{
    Admission, BackgroundTask, CommitHook, NoJournal, NoRenewals, Open, Renewals, ServeError,
    ServerConfig, Terms, serve_all,
};
use sb_wire::Sink;
use sb_words::{Origin, RenewPolicy, ServeWords};
use std::alloc::{AllocError, Global};
use std::net::TcpListener;
use std::time::Instant;

/// What a server works with.
#[derive(Drop)]
pub(crate) struct ServerContext<'k, H, T> {
    pub(crate) rt: &'k T,
    pub(crate) alloc: Global,
    pub(crate) host: H,
    pub(crate) plan: Plan,
    pub(crate) words: ServeWords<'k>,
    pub(crate) log: &'k EventLog<'k, T>,
    pub(crate) controls: &'k ServerControls,
    /// Who has started it, if it wants to hear of it.
    pub(crate) supervisor: Option<Supervisor>,
    ghost bound: { plan.bound.considerations ≤ 1000 },
    ghost workers: { (0 < plan.terms.workers) × (plan.terms.workers ≤ 16) },
}

/// The admission of a server, and what is looked at for it.
#[derive(Drop)]
pub(crate) struct Entrance<'a, 'g, A, G> {
    pub(crate) admission: &'a A,
    pub(crate) chore: &'g G,
}

impl<'k, H: Renewing + Sync, T: System + Sync> ServerContext<'k, H, T>
where
    H::Session: Send,
{
    /// Makes the tenants from files or a journal, and serves connections until the server stops.
    pub(crate) fn serve<W: Sink>(&self, writer: &mut W) -> Result<ServerEnd, ProgramFault>
        ensures ok { OnOk result (TellsPort (W.contents writer.old) (W.contents writer.new)) }
        ensures plain { IsPlainServer self.now.words self.now.plan
            → EndsPlainly W.refuses W.contents (policy false anyone) writer.old writer.new result }
    {
        let _lock = match self.lock_folder() {
            Ok(lock) => lock,
            Err(why) => return Err(ProgramFault::Backup(why)),
        };
        match self.words.keys {
            Some(path) => self.with_keys(path, writer),
            None => {
                let gate = Entrance::<Open, NoChore> {
                    admission: &Open,
                    chore: &NoChore,
                };
                self.admit(gate, writer)
            }
        }
    }

    /// Listens at the status port, if one is asked for, and serves the clients of this admission, with a journal if one
    /// is asked for.
    pub(crate) fn admit<A: Admission + Sync, G: Chore, W: Sink>(
        &self,
        gate: Entrance<'_, '_, A, G>,
        writer: &mut W,
    ) -> Result<ServerEnd, ProgramFault>
        ensures ok { OnOk result (TellsPort (W.contents writer.old) (W.contents writer.new)) }
        ensures plain { IsPlainServer self.now.words self.now.plan → EndsPlainly W.refuses W.contents
            (policy (A.wants gate.entry.admission.now) (A.admits gate.entry.admission.now)) writer.old writer.new result }
    {
        let port = self.status_port(gate.admission)?;
        match self.words.origin {
            Origin::Fresh => self.serve_with(gate, &NoJournal, Vec::new(self.alloc), &port, writer),
            Origin::Folder(path) => match self.beside(&port, || self.load(path)) {
                Ok(loaded) => self.serve_with(gate, &NoJournal, loaded, &port, writer),
                Err(why) => Err(ProgramFault::Backup(why)),
            },
            Origin::Journal(journal) => self.record(journal, gate, &port, writer),
        }
    }

    /// Does some work while the status port, if there is one, tells that clients aren't let in yet.
    pub(crate) fn beside<A: Admission + Sync, X, F: FnOnce() -> X>(
        &self,
        port: &Option<StatusPort<Pages<'_, H, A, T>>>,
        work: F,
    ) -> X
        requires { F.pre work }
        ensures { F.post work result }
    {
        match port {
            Some(port) => work_beside(self.rt, port, work),
            None => work(),
        }
    }

    /// Serves the clients of this admission with this commit hook. After the last connection the tenants are written to
    /// their files.
    pub(crate) fn serve_with<A: Admission + Sync, G: Chore, K: CommitHook + Sync, W: Sink>(
        &self,
        gate: Entrance<'_, '_, A, G>,
        commit_hook: &K,
        loaded: Vec<Stub>,
        port: &Option<StatusPort<Pages<'_, H, A, T>>>,
        writer: &mut W,
    ) -> Result<ServerEnd, ProgramFault>
        ensures ok { OnOk result (TellsPort (W.contents writer.old) (W.contents writer.new)) }
        ensures plain { IsPlainServer self.now.words self.now.plan → port.now ≡ None → loaded.items ≡ []
            → EndsPlainly W.refuses W.contents (policy (A.wants gate.entry.admission.now) (A.admits gate.entry.admission.now))
            writer.old writer.new result }
    {
        match self.listen(writer) {
            Ok(listener) => self.serve_at(&listener, port, gate, commit_hook, loaded),
            Err(why) => Err(why),
        }
    }

    /// Listens at the server's port, and writes it.
    pub(crate) fn listen<W: Sink>(&self, writer: &mut W) -> Result<TcpListener, ProgramFault>
        ensures ok { OnOk result (TellsPort (W.contents writer.old) (W.contents writer.new)) }
        ensures err { IfErr result (IsUnheard W.refuses W.contents writer.old writer.new) }
    {
        match listen(self.rt, self.alloc, self.plan.address, self.log, writer) {
            Ok(listener) => Ok(listener),
            Err(why) => Err(unheard(why)),
        }
    }

    /// Tells whoever has started the server, if it wants to hear of it.
    pub(crate) fn tell(&self, lines: &[u8]) {
        if let Some(supervisor) = &self.supervisor {
            supervisor.tell(lines);
        }
    }

    /// Serves the connections of this port, and status pages at the other one. Behind the last connection the tenants
    /// are written, if that is asked for.
    pub(crate) fn serve_at<A: Admission + Sync, G: Chore, K: CommitHook + Sync>(
        &self,
        listener: &TcpListener,
        port: &Option<StatusPort<Pages<'_, H, A, T>>>,
        gate: Entrance<'_, '_, A, G>,
        commit_hook: &K,
        loaded: Vec<Stub>,
    ) -> Result<ServerEnd, ProgramFault>
        ensures { IsPlainServer self.now.words self.now.plan → port.now ≡ None → loaded.items ≡ [] → ServesPlainly
            (policy (A.wants gate.entry.admission.now) (A.admits gate.entry.admission.now)) result }
    {
        if !self.may_renew() {
            let served = self.serve_by(listener, port, gate, commit_hook, &NoRenewals);
            return with_earlier(loaded, served);
        }
        let Ok(renewals) = self.renewals(commit_hook, loaded) else {
            return Err(OUT_OF_MEMORY);
        };
        let served = self.serve_by(listener, port, gate, commit_hook, &renewals);
        match renewals.into_stubs() {
            Ok(held) => with_earlier(held, served),
            Err(_) => Err(OUT_OF_MEMORY),
        }
    }

    /// Serves so, and renews tenants by these renewals.
    fn serve_by<A: Admission + Sync, G: Chore, K: CommitHook + Sync, E: Renewals + Sync>(
        &self,
        listener: &TcpListener,
        port: &Option<StatusPort<Pages<'_, H, A, T>>>,
        gate: Entrance<'_, '_, A, G>,
        commit_hook: &K,
        renewals: &E,
    ) -> Result<ServerEnd, ProgramFault>
        ensures { self.now.words.dump_to ≡ None → port.now ≡ None → E.may_renew ≡ false → ServesPlainly
            (policy (A.wants gate.entry.admission.now) (A.admits gate.entry.admission.now)) result }
    {
        let Ok(saver) = self.saver() else {
            return Err(OUT_OF_MEMORY);
        };
        let config = ServerConfig {
            listener,
            watch: self.log,
            admission: gate.admission,
            commit_hook,
            renewals,
            server_metrics: &self.controls.server_metrics,
            terms: self.terms(),
        };
        let housekeeping = Housekeeping {
            chore: gate.chore,
            idle_renewals: self.idle_renewals(renewals),
            running_steps: RunningSteps {
                host: self.host,
                log: self.log,
                first_tenant: self.plan.terms.first_tenant,
            },
            long_stop: self.long_stop(&saver, listener),
        };
        match self.serve_config(&config, port, &housekeeping) {
            Ok(stubs) => Ok(ServerEnd {
                stubs,
                saved: self.save(&saver),
            }),
            Err(error) => Err(unserved(error)),
        }
    }

    /// Serves by this configuration, with the status port if there is one.
    fn serve_config<
        A: Admission + Sync,
        G: BackgroundTask,
        K: CommitHook + Sync,
        E: Renewals + Sync,
    >(
        &self,
        config: &ServerConfig<'_, EventLog<'k, T>, A, K, E>,
        port: &Option<StatusPort<Pages<'_, H, A, T>>>,
        housekeeping: &G,
    ) -> Result<Vec<Stub>, ServeError>
        requires { (0 < config.now.terms.workers) × (config.now.terms.workers ≤ 16) }
        ensures { port.now ≡ None → IfOk result (AreLeft
            (policy (A.wants config.now.admission.now) (A.admits config.now.admission.now)) E.may_renew) }
    {
        self.let_in();
        match port {
            Some(port) => serve_beside(self.rt, self.alloc, config, self.host, port, housekeeping),
            None => serve_all(self.rt, self.alloc, config, self.host, housekeeping),
        }
    }

    /// Lets clients in. From now on each tenant has its share of memory: what was played or read before may be more.
    fn let_in(&self) {
        if let Some(bytes) = self.plan.tenant_memory {
            self.host.limit_memory(self.rt, bytes);
        }
        self.controls.let_in();
        self.tell(b"READY=1\nSTATUS=clients are let in\n");
    }

    /// True if a tenant may be renewed: some are without being asked for, or an operator can ask for one.
    fn may_renew(&self) -> bool
        ensures { self.now.plan.status ≡ None → self.now.plan.renew ≡ policies.Never → result ≡ false }
    {
        self.plan.status.is_some() || matches!(self.plan.renew, RenewPolicy::Auto)
    }

    /// Renews tenants while their connections stay open. It holds the receipts of the sessions that were closed before.
    fn renewals<'a, K: CommitHook>(
        &'a self,
        commit_hook: &'a K,
        closed: Vec<Stub>,
    ) -> Result<TenantRenewals<'a, H, K, T>, AllocError> {
        let limits = RenewalLimits {
            bound: self.plan.bound,
            is_auto: matches!(self.plan.renew, RenewPolicy::Auto),
            tenant_memory: self.plan.tenant_memory,
        };
        let renewals = TenantRenewals::new(
            self.alloc,
            self.host,
            commit_hook,
            self.log,
            &self.controls.renewal_board,
            limits,
        )?;
        renewals.hold(self.rt, closed)?;
        Ok(renewals)
    }

    /// Renewals of tenants that have no connection, where any is renewed by itself.
    fn idle_renewals<'a, E: Renewals>(&'a self, renewals: &'a E) -> Option<IdleRenewals<'a, H, E>> {
        match self.plan.renew {
            RenewPolicy::Never => None,
            RenewPolicy::Auto => Some(IdleRenewals {
                host: self.host,
                renewals,
                controls: self.controls,
            }),
        }
    }

    /// The terms of the server. With a status port its input is the stop's.
    fn terms(&self) -> Terms
        ensures { result.workers ≡ self.now.plan.terms.workers }
    {
        Terms {
            until_input_ends: self.plan.terms.until_input_ends || self.plan.status.is_some(),
            ..self.plan.terms
        }
    }

    /// What is done where the stop takes long: without a journal tenants are written that are at rest. A port that is
    /// closed behind some connections doesn't tell of a stop.
    fn long_stop<'s>(
        &self,
        saver: &'s Option<TenantSaver<'k, 'k, T, EventLog<'k, T>>>,
        listener: &'s TcpListener,
    ) -> Option<LongStop<'s, 'k, 'k, H, T, EventLog<'k, T>>> {
        if matches!(self.words.origin, Origin::Journal(_)) || self.plan.terms.connections > 0 {
            return None;
        }
        let saver = saver.as_ref()?;
        Some(LongStop::new(saver, self.host, listener))
    }

    /// Listens at the status port, if there is to be one.
    fn status_port<'a, A: Admission>(
        &'a self,
        admission: &'a A,
    ) -> Result<Option<StatusPort<Pages<'a, H, A, T>>>, ProgramFault>
        ensures { self.now.plan.status ≡ None → result ≡ Ok None }
    {
        let Some(address) = self.plan.status else {
            return Ok(None);
        };
        match StatusPort::open(self.rt, address, self.log, self.pages(admission)) {
            Ok(port) => Ok(Some(port)),
            Err(_) => Err(ProgramFault::CannotListen),
        }
    }

    /// The status pages of this server.
    fn pages<'a, A: Admission>(&'a self, admission: &'a A) -> Pages<'a, H, A, T> {
        Pages {
            rt: self.rt,
            alloc: self.alloc,
            host: self.host,
            admission,
            first_tenant: self.plan.terms.first_tenant,
            bound: self.plan.bound,
            began: Instant::now(self.rt).ok(),
            memory: memory_file(self.rt),
            server_metrics: &self.controls.server_metrics,
            renewal_board: &self.controls.renewal_board,
            session_board: &self.controls.session_board,
            journal_board: &self.controls.journal_board,
            tenant_memory: self.plan.tenant_memory,
            control: self.controls,
        }
    }

    /// Locks the folder to which the tenants are to be written, if there is to be one.
    fn lock_folder(&self) -> Result<Option<FolderLock>, BackupError>
        ensures { self.now.words.dump_to ≡ None → result ≡ Ok None }
    {
        let Some(path) = self.words.dump_to else {
            return Ok(None);
        };
        Ok(Some(folder_at(self.plan, path).claim(self.rt, self.log)?))
    }

    /// Makes the tenants from the files of this folder.
    fn load(&self, path: &str) -> Result<Vec<Stub>, BackupError> {
        let scripts = FolderScripts {
            rt: self.rt,
            folder: folder_at(self.plan, path),
            log: self.log,
        };
        load_folder(self.alloc, self.host, &scripts)
    }

    /// What writes the tenants to their files, if that is asked for.
    fn saver(&self) -> Result<Option<TenantSaver<'k, 'k, T, EventLog<'k, T>>>, AllocError>
        ensures { self.now.words.dump_to ≡ None → IfOk result (λ saver. saver ≡ None) }
    {
        let Some(path) = self.words.dump_to else {
            return Ok(None);
        };
        let files = ScriptFiles {
            rt: self.rt,
            alloc: self.alloc,
            bound: self.plan.bound,
            folder: folder_at(self.plan, path),
            log: self.log,
        };
        Ok(Some(TenantSaver::new(files, self.host.tenants())?))
    }

    /// Writes the tenants to their files, if that is asked for.
    fn save(
        &self,
        saver: &Option<TenantSaver<'k, 'k, T, EventLog<'k, T>>>,
    ) -> Result<(), ProgramFault>
        ensures { saver.now ≡ None → is_ok result ≡ true }
    {
        self.tell(b"STOPPING=1\nSTATUS=the tenants are written\n");
        match saver {
            Some(saver) => of_backup(saver.save_all(self.rt, self.host)),
            None => Ok(()),
        }
    }
}

/// The folder at this path, whose files are named by the numbers of the plan.
fn folder_at(plan: Plan, path: &str) -> Folder<'_>
    ensures { (result.path.now ≡ path.now) × (result.first ≡ plan.terms.first_tenant) }
{
    Folder {
        path,
        first: plan.terms.first_tenant,
    }
}
