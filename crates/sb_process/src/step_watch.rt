//! A step as other threads see it while it runs.

use sb_value::{Name, SessionId};
use std::alloc::{AllocError, Global};
use std::sync::atomic::{AtomicU64, Ordering};
use std::sync::{Arc, Mutex};

/// The bits of a step's word that name its tenant and its session, and the one that says that it runs.
const WHO_BITS: u32 = 11;

const SESSION_BITS: u32 = 3;

const RUNS: u64 = 1 << WHO_BITS;

const SERIAL: u64 = RUNS << 1;

/// How many bytes of a line are shown at most.
const SHOWN_LIMIT: usize = 64;

/// The first bytes of a line.
#[derive(Clone, Copy)]
pub struct LineStart {
    bytes: [u8; SHOWN_LIMIT],
    len: usize,
}

impl LineStart {
    /// The first 64 bytes of a line, or the whole line.
    fn new(line: &[u8]) -> LineStart {
        let mut bytes = [0; SHOWN_LIMIT];
        for (place, byte) in bytes.iter_mut().zip(line) {
            *place = *byte;
        }
        LineStart {
            bytes,
            len: line.len().min(SHOWN_LIMIT),
        }
    }

    /// Its bytes.
    pub fn as_slice(&self) -> &[u8] {
        match self.bytes.get(..self.len) {
            Some(bytes) => bytes,
            None => &[],
        }
    }
}

/// The consideration that a step makes, or made last.
#[derive(Clone, Copy)]
pub struct RunningConsideration {
    pub rule: Name,
    /// The line at whose assertion point the rule is considered.
    pub line: LineStart,
}

/// The newest consideration, and the word of its step.
#[derive(Clone, Copy)]
struct NewestConsideration {
    word: u64,
    consideration: RunningConsideration,
}

/// The parts of a step that threads share. A word names the step: its serial number, whether it runs, its tenant and its
/// session.
#[derive(Drop)]
struct Shared {
    step: AtomicU64,
    /// The word of the step that is to end.
    to_end: AtomicU64,
    considered: AtomicU64,
    newest: Mutex<Option<NewestConsideration>>,
    /// The word of the step that ran at the last look.
    seen: AtomicU64,
    /// How many looks before the last one saw that step.
    looks: AtomicU64,
}

/// Tells other threads how far the step of a cell is, and lets them end it. Its copies are one. Nothing rests on what it
/// tells.
#[derive(Drop)]
pub struct StepWatch {
    shared: Arc<Shared>,
}

/// A step that runs.
#[derive(Clone, Copy, Debug, PartialEq, Eq)]
pub struct RunningStep {
    /// No two steps of a cell have one word.
    pub word: u64,
    pub tenant: u32,
    /// The number of the session.
    pub session: u32,
    /// How many rules it has considered, with the one that it considers.
    pub considered: u64,
    /// How many looks before the last one saw it: about its seconds, where there is a look a second.
    pub seconds: u64,
}

impl StepWatch {
    /// A watch of a cell in which no step runs. Error: out of memory.
    pub fn new(alloc: Global) -> Result<StepWatch, AllocError> {
        let shared = Shared {
            step: AtomicU64::new(0),
            to_end: AtomicU64::new(0),
            considered: AtomicU64::new(0),
            newest: Mutex::new(None),
            seen: AtomicU64::new(0),
            looks: AtomicU64::new(0),
        };
        Ok(StepWatch {
            shared: Arc::new(alloc, shared)?,
        })
    }

    /// The same watch once more. Error: out of memory.
    pub fn share(&self) -> Result<StepWatch, AllocError> {
        Ok(StepWatch {
            shared: self.shared.clone()?,
        })
    }

    /// Tells that a step of this session begins.
    pub fn begin(&self, tenant: u32, session: SessionId) {
        let serial = self.shared.step.load(Ordering::SeqCst) / SERIAL;
        let word = serial.wrapping_add(1).wrapping_mul(SERIAL);
        self.shared.considered.store(0, Ordering::SeqCst);
        self.shared
            .step
            .store(word | RUNS | who(tenant, session), Ordering::SeqCst);
    }

    /// Tells that the step is over.
    pub fn finish(&self) {
        let word = self.shared.step.load(Ordering::SeqCst);
        self.shared.step.store(word & !RUNS, Ordering::SeqCst);
    }

    /// Tells that a rule is considered next, at this line. False if the step is to end.
    pub(crate) fn goes_on(&self, rule: &Name, line: &[u8]) -> bool {
        self.shared.considered.fetch_add(1, Ordering::SeqCst);
        let word = self.shared.step.load(Ordering::SeqCst);
        if let Some(mut newest) = self.shared.newest.try_lock() {
            let line = match &*newest {
                Some(before) if before.word == word => before.consideration.line,
                _ => LineStart::new(line),
            };
            let consideration = RunningConsideration { rule: *rule, line };
            *newest = Some(NewestConsideration {
                word,
                consideration,
            });
        }
        self.shared.to_end.load(Ordering::SeqCst) != word
    }

    /// The step that runs, if one does.
    pub fn running(&self) -> Option<RunningStep> {
        let word = self.shared.step.load(Ordering::SeqCst);
        if word & RUNS == 0 {
            return None;
        }
        let seconds = match self.shared.seen.load(Ordering::SeqCst) == word {
            true => self.shared.looks.load(Ordering::SeqCst),
            false => 0,
        };
        Some(RunningStep {
            word,
            tenant: ((word >> SESSION_BITS) % 256) as u32,
            session: (word % 8) as u32,
            considered: self.shared.considered.load(Ordering::SeqCst),
            seconds,
        })
    }

    /// Looks at the step that runs, if one does, and counts the look. One thread does so, about once a second.
    pub fn look(&self) -> Option<RunningStep> {
        let mut step = self.running()?;
        if self.shared.seen.swap(step.word, Ordering::SeqCst) == step.word {
            step.seconds = self
                .shared
                .looks
                .fetch_add(1, Ordering::SeqCst)
                .wrapping_add(1);
        } else {
            self.shared.looks.store(0, Ordering::SeqCst);
        }
        Some(step)
    }

    /// The newest consideration of a step, unless the step is over, has none, or tells of one just now.
    pub fn consideration(&self, step: &RunningStep) -> Option<RunningConsideration> {
        match self.shared.newest.try_lock()?.as_ref()? {
            newest if newest.word == step.word => Some(newest.consideration),
            _ => None,
        }
    }

    /// Has a step end at its next consideration, as one for which there is no memory. One that is over isn't touched.
    pub fn end(&self, step: &RunningStep) {
        self.shared.to_end.store(step.word, Ordering::SeqCst);
    }
}

/// The tenant and the session in a word.
fn who(tenant: u32, session: SessionId) -> u64 {
    (u64::from(tenant % 256) << SESSION_BITS) | u64::from(session.number())
}
