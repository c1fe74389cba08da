//! Threads share a recorder: through it they record their steps before they answer them.
ghost use Rattle.std.specs.Prelude.{◌≡◌, ◌++◌, ◌∷◌, [], IfOk, IsTrue, OnOk};
ghost use Rattle.std.specs.List.{All};
ghost use Rattle.sb_durable.specs.EntryReaders.{EndsAt, IsEndOf};
ghost use Rattle.sb_durable.specs.RecordedTrails.{AreKept, ends_of};
ghost use Rattle.sb_durable.specs.declared.noted_trail.TrailEnd.{TrailEnd as ItsEnd};

use crate::journal_writer::JournalWriter;
use crate::noted_trail::{NotedTrail, TrailEnd};
use crate::{BatchJournal, JournalError, RecordedReach};
use sb_host::Lending;
use std::alloc::{AllocError, Global};
use std::mem;
use std::sync::{Mutex, Wait};

/// Records the trails of a host's tenants in a journal. Nobody reads a tenant while the journal is locked, so who waits for
/// a tenant keeps no other one waiting.
#[derive(Drop)]
pub struct Recorder<H: Lending, B> {
    alloc: Global,
    host: H,
    journal_writer: Mutex<JournalWriter<B>>,
    /// A reach of each tenant, for callers that haven't locked the journal: it is recorded so far or further.
    reaches: Mutex<Vec<RecordedReach>>,
    callers: Mutex<Callers>,
}

/// The trails that all calls which wait for the journal have read.
#[derive(Drop)]
struct Callers {
    trails: Vec<NotedTrail>,
}

/// The trails that a call has read of its tenants.
#[derive(Drop)]
struct ReadTrails {
    trails: Vec<NotedTrail>,
    ends: Vec<TrailEnd>,
    /// The trail of each tenant was read to its end.
    are_whole: bool,
}

impl<H: Lending, B: BatchJournal + Drop> Recorder<H, B> {
    /// A recorder of this host in this journal, which has each tenant so far. Error: out of memory.
    pub fn new(
        alloc: Global,
        host: H,
        journal: B,
        recorded: Vec<RecordedReach>,
    ) -> Result<Recorder<H, B>, AllocError> {
        let mut reaches = Vec::new(alloc);
        reaches.extend_from_slice(&recorded)?;
        Ok(Recorder {
            alloc,
            host,
            journal_writer: Mutex::new(JournalWriter {
                alloc,
                journal,
                recorded,
            }),
            reaches: Mutex::new(reaches),
            callers: Mutex::new(Callers {
                trails: Vec::new(alloc),
            }),
        })
    }
}

impl<H: Lending, B: BatchJournal> Recorder<H, B> {
    /// Records all entries of these tenants' trails, and syncs the journal, which then goes on in a further file where its
    /// file is full. A tenant has to be recorded before it is renewed (else: Unrecorded, and nothing of it is written from
    /// then on). After an error other than that, want of memory and NoRoom each further call fails and writes nothing.
    pub fn keep<T: Wait>(&self, rt: &T, tenants: &[u32]) -> Result<(), JournalError>
        ensures { OnOk result (AreKept B.BatchJournal tenants.now) }
    {
        for _ in rt.forever() {
            if self.keep_some(rt, tenants)? {
                return Ok(());
            }
        }
        unreachable!()
    }

    /// Reads these trails once and records what it read. True if that is all of them; else another call has recorded some
    /// of it first, or it is too much for a batch.
    fn keep_some<T: Wait>(&self, rt: &T, tenants: &[u32]) -> Result<bool, JournalError>
        ensures { IfOk result (λ is_kept. IsTrue is_kept → AreKept B.BatchJournal tenants.now) }
    {
        let read = self.read(rt, tenants)?;
        let ReadTrails {
            trails,
            ends,
            are_whole,
        } = read;
        self.join(rt, trails)?;
        let is_kept = self.record(rt, &ends)?;
        match are_whole {
            true => Ok(is_kept),
            false => Ok(false),
        }
    }

    /// Reads the entries of these trails beyond the journal.
    fn read<T: Wait>(&self, rt: &T, tenants: &[u32]) -> Result<ReadTrails, JournalError>
        ensures { IfOk result (λ read. IsTrue read.are_whole → (ends_of read.ends.items ≡ tenants.now)
            × All (λ (end : ItsEnd). IsEndOf end.tenant end.reach) read.ends.items) }
    {
        let mut read = ReadTrails {
            trails: Vec::new(self.alloc),
            ends: Vec::new(self.alloc),
            are_whole: true,
        };
        for tenant in tenants {
            self.read_one(rt, *tenant, &mut read)?;
        }
        Ok(read)
    }

    /// Reads the entries of a trail beyond the journal, and puts them behind those of other trails. A trail that doesn't go
    /// on where it was recorded isn't whole: it may be recorded further by now.
    fn read_one<T: Wait>(
        &self,
        rt: &T,
        tenant: u32,
        read: &mut ReadTrails,
    ) -> Result<(), JournalError>
        ensures { OnOk result (IsTrue read.new.are_whole → (end : ItsEnd) × IsTrue read.old.are_whole × (end.tenant ≡ tenant)
            × IsEndOf end.tenant end.reach × (read.new.ends.items ≡ read.old.ends.items ++ end ∷ [])) }
    {
        let reach = self.reach_of(rt, tenant)?;
        match NotedTrail::read(rt, self.alloc, self.host, tenant, reach) {
            Ok(trail) => add(read, trail),
            Err(JournalError::Unrecorded) if !self.is_recorded_to(rt, tenant, reach) => {
                read.are_whole = false;
                Ok(())
            }
            Err(error) => Err(error),
        }
    }

    /// The reach of a tenant: it is recorded so far or further.
    fn reach_of<T: Wait>(&self, rt: &T, tenant: u32) -> Result<RecordedReach, JournalError> {
        let reaches = self.reaches.lock(rt);
        match reaches.get(tenant as usize) {
            Some(reach) => Ok(*reach),
            // a host has a tenant of each number below its count
            None => Err(JournalError::Spent),
        }
    }

    /// True if a tenant is recorded just so far. It waits for the journal.
    fn is_recorded_to<T: Wait>(&self, rt: &T, tenant: u32, reach: RecordedReach) -> bool {
        let journal_writer = self.journal_writer.lock(rt);
        journal_writer.is_recorded_to(tenant, reach)
    }

    /// Adds these trails to those that wait.
    fn join<T: Wait>(&self, rt: &T, trails: Vec<NotedTrail>) -> Result<(), JournalError> {
        let mut callers = self.callers.lock(rt);
        for trail in trails {
            callers.trails.push(trail)?;
        }
        Ok(())
    }

    /// Records all that waits, and syncs the journal. True if each of these ends is recorded then.
    fn record<T: Wait>(&self, rt: &T, ends: &[TrailEnd]) -> Result<bool, JournalError>
        ensures { IfOk result (λ is_kept. IsTrue is_kept → All (λ (end : ItsEnd). IsEndOf end.tenant end.reach) ends.now → AreKept B.BatchJournal (ends_of ends.now)) }
    {
        let mut journal_writer = self.journal_writer.lock(rt);
        // one commit serves all that wait
        let callers = self.take(rt);
        let kept = journal_writer.bring_up(&callers.trails, ends);
        self.publish(rt, &journal_writer, &callers.trails);
        if kept.is_ok() {
            journal_writer.journal.turn();
        }
        kept
    }

    /// Takes all trails that wait.
    fn take<T: Wait>(&self, rt: &T) -> Callers {
        let mut callers = self.callers.lock(rt);
        let none = Callers {
            trails: Vec::new(self.alloc),
        };
        mem::replace(&mut *callers, none)
    }

    /// Tells the reach of each of these trails' tenants to callers that haven't locked the journal.
    fn publish<T: Wait>(&self, rt: &T, journal_writer: &JournalWriter<B>, trails: &[NotedTrail]) {
        let mut reaches = self.reaches.lock(rt);
        for trail in trails {
            let place = trail.tenant as usize;
            if let (Some(told), Some(reach)) = (
                reaches.get_mut(place),
                journal_writer.recorded.get(place),
            ) {
                *told = *reach;
            }
        }
    }
}

/// Adds a trail to those that were read, and its end if all of it was.
fn add(read: &mut ReadTrails, trail: NotedTrail) -> Result<(), JournalError>
    ensures { OnOk result (IsTrue read.new.are_whole → (end : ItsEnd) × IsTrue read.old.are_whole × (end.tenant ≡ trail.tenant)
        × EndsAt trail.notes end.reach × (read.new.ends.items ≡ read.old.ends.items ++ end ∷ [])) }
{
    let end = trail.end();
    read.trails.push(trail)?;
    match end {
        Some(end) => {
            read.ends.push(end)?;
            Ok(())
        }
        None => {
            read.are_whole = false;
            Ok(())
        }
    }
}
