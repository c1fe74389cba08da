//! A server with a journal: it begins as the journal leaves it, and what is answered is recorded before it is sent.
ghost use Rattle.std.specs.Prelude.{OnOk};
ghost use Rattle.sb_monitor.specs.Listening.{TellsPort};

use crate::fault::ProgramFault;
use crate::server_context::{Entrance, ServerContext};
use crate::server_end::ServerEnd;
use crate::system::System;
use sb_durable::{
    BatchJournal, Flusher, Folder, FolderMaker, Head, JournalFault, Recorder, syncing_of,
    tell_no_journal,
};
use sb_host::{Renewing, Stub};
use sb_monitor::{Chore, EventLog, JournalHook, Pages, StatusPort, SyncedChore};
use sb_server::Admission;
use sb_wire::Sink;
use sb_words::{JournalWords, Syncs};
use std::fmt::Display;

impl<'k, H: Renewing + Sync, T: System + Sync> ServerContext<'k, H, T>
where
    H::Session: Send,
{
    /// Makes the tenants of the journal in this folder, and serves connections that are recorded in it. Error: CannotOpen,
    /// and the reason is logged; or as of serving.
    pub(crate) fn record<A: Admission + Sync, G: Chore, W: Sink>(
        &self,
        journal: JournalWords<'_>,
        gate: Entrance<'_, '_, A, G>,
        port: &Option<StatusPort<Pages<'_, H, A, T>>>,
        writer: &mut W,
    ) -> Result<ServerEnd, ProgramFault>
        ensures { OnOk result (TellsPort (W.contents writer.old) (W.contents writer.new)) }
    {
        let JournalWords { path, syncs } = journal;
        let folder = match Folder::open(self.rt, path, syncing_of(syncs)) {
            Ok(folder) => folder,
            Err(error) => return Err(self.not_opened(path, &error)),
        };
        let flusher = Flusher::new(self.log);
        let lent = match syncs {
            Syncs::Always => None,
            Syncs::Second | Syncs::Never => Some(&flusher),
        };
        let maker = FolderMaker::new(self.rt, self.alloc, &folder, self.log, lent);
        let head = self.journal_head();
        self.tell(b"STATUS=the journal is played\n");
        let mut opened = None;
        self.beside(port, || {
            opened = Some(maker.open_recorder(self.host, head, self.plan.segment));
        });
        match opened {
            Some(Ok(restarted)) => {
                self.serve_synced(restarted, syncs, &flusher, gate, port, writer)
            }
            Some(Err(error)) => Err(self.not_opened(path, &error)),
            None => Err(ProgramFault::Journal(JournalFault::CannotOpen)),
        }
    }

    /// The settings of the server's journal.
    fn journal_head(&self) -> Head {
        Head::new(self.plan.tenants, self.plan.bound)
    }

    /// Logs why the journal at this path isn't opened.
    fn not_opened<D: Display>(&self, path: &str, why: &D) -> ProgramFault {
        tell_no_journal(self.log, path, why);
        ProgramFault::Journal(JournalFault::CannotOpen)
    }

    /// Serves connections that this recorder records. Where commits don't sync, the journal is synced once a second and at
    /// the end, if that is asked for.
    fn serve_synced<B: BatchJournal + Send + Drop, A: Admission + Sync, G: Chore, W: Sink>(
        &self,
        restarted: (Recorder<H, B>, Vec<Stub>),
        syncs: Syncs,
        flusher: &Flusher<'k, EventLog<'k, T>>,
        gate: Entrance<'_, '_, A, G>,
        port: &Option<StatusPort<Pages<'_, H, A, T>>>,
        writer: &mut W,
    ) -> Result<ServerEnd, ProgramFault>
        ensures { OnOk result (TellsPort (W.contents writer.old) (W.contents writer.new)) }
    {
        let Syncs::Second = syncs else {
            return self.serve_recorded(restarted, None, gate, port, writer);
        };
        let served = self.serve_recorded(restarted, Some(flusher), gate, port, writer);
        match flusher.flush(self.rt) {
            true => served,
            false => Err(ProgramFault::Journal(JournalFault::Failed)),
        }
    }

    /// Serves connections that this recorder records, behind the sessions that left these receipts.
    pub(crate) fn serve_recorded<
        B: BatchJournal + Send + Drop,
        A: Admission + Sync,
        G: Chore,
        W: Sink,
    >(
        &self,
        restarted: (Recorder<H, B>, Vec<Stub>),
        flusher: Option<&Flusher<'k, EventLog<'k, T>>>,
        gate: Entrance<'_, '_, A, G>,
        port: &Option<StatusPort<Pages<'_, H, A, T>>>,
        writer: &mut W,
    ) -> Result<ServerEnd, ProgramFault>
        ensures { OnOk result (TellsPort (W.contents writer.old) (W.contents writer.new)) }
    {
        let (recorder, stubs) = restarted;
        let recording = JournalHook::new(recorder, self.log, &self.controls.journal_board, flusher);
        let synced = SyncedChore {
            chore: gate.chore,
            flusher,
        };
        let entrance = Entrance {
            admission: gate.admission,
            chore: &synced,
        };
        self.serve_with(entrance, &recording, stubs, port, writer)
    }
}
