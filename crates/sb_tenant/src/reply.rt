//! Replies, answers and the entries of a trail.
ghost use Rattle.std.specs.Prelude.{◌≡◌, [], IfOk};

use sb_rows::SharedRows;
use sb_value::{Name, Refusal, SessionId, Verdict};
use smallvec::SmallVec;
use std::alloc::{AllocError, Global};
use std::marker::Model;
use std::sync::Arc;

/// A command line's bytes, without its newline. Its copies share them, and those of a line of at most 40 bytes stand in
/// one piece of memory.
pub struct Line {
    bytes: Arc<SmallVec<u8, 40>>,
}

impl Drop for Line {
    fn drop(self) {
        let Self { bytes: _ } = self;
    }
}

impl Model for Line {
    ghost use Rattle.std.specs.Prelude.{List, ℕ};
    ghost use Rattle.std.specs.Arc.{arc_value};

    ghost Value = { List ℕ };

    ghost view = { λ l. (arc_value l.bytes).items };
}

impl Line {
    /// The line with these bytes. Error: out of memory.
    pub fn new(alloc: Global, bytes: &[u8]) -> Result<Line, AllocError>
        ensures { IfOk result (λ line. line ≡ bytes.now) }
    {
        Ok(Line {
            bytes: Arc::new(alloc, SmallVec::from_slice(alloc, bytes)?)?,
        })
    }

    /// Its bytes.
    pub fn as_slice(&self) -> &[u8]
        ensures { result.now ≡ self.now }
    {
        let bytes: &SmallVec<u8, 40> = &self.bytes;
        bytes.as_slice()
    }

    /// Another reference to the same line. Error: out of memory.
    pub fn share(&self) -> Result<Line, AllocError>
        ensures { IfOk result (λ shared. shared ≡ self.now) }
    {
        Ok(Line {
            bytes: self.bytes.clone()?,
        })
    }
}

/// The considered rules by name, with their verdicts, in order. Its copies share them; where no rule was considered
/// there is nothing to share.
pub struct NamedTrace {
    list: Option<Arc<Vec<(Name, Verdict)>>>,
}

impl Drop for NamedTrace {
    fn drop(self) {
        let Self { list: _ } = self;
    }
}

impl Model for NamedTrace {
    ghost use Rattle.std.specs.Prelude.{List, ℕ, [], option_map, unwrap_or};
    ghost use Rattle.std.specs.Arc.{arc_value};
    ghost use Rattle.std.specs.Vec.{vec_items};
    ghost use Rattle.sb_value.specs.declared.refusal.Verdict.{Verdict};

    ghost Value = { List (List ℕ × Verdict) };

    ghost view = { λ t. unwrap_or (option_map (λ list. vec_items (arc_value list)) t.list) [] };
}

impl NamedTrace {
    /// No consideration.
    pub fn none() -> NamedTrace
        ensures { result ≡ [] }
    {
        NamedTrace { list: None }
    }

    /// These considerations, to be shared. Error: out of memory.
    pub fn new(alloc: Global, list: Vec<(Name, Verdict)>) -> Result<NamedTrace, AllocError>
        ensures { IfOk result (λ trace. trace ≡ list.items) }
    {
        if list.is_empty() {
            return Ok(NamedTrace { list: None });
        }
        Ok(NamedTrace {
            list: Some(Arc::new(alloc, list)?),
        })
    }

    /// The considerations in order.
    pub fn as_slice(&self) -> &[(Name, Verdict)]
        ensures { result.now ≡ self.now }
    {
        match &self.list {
            Some(list) => {
                let list: &Vec<(Name, Verdict)> = list;
                list.as_slice()
            }
            None => &[],
        }
    }

    /// Another reference to the same considerations. Error: out of memory.
    pub fn share(&self) -> Result<NamedTrace, AllocError>
        ensures { IfOk result (λ shared. shared ≡ self.now) }
    {
        match &self.list {
            Some(list) => Ok(NamedTrace {
                list: Some(list.clone()?),
            }),
            None => Ok(NamedTrace { list: None }),
        }
    }
}

/// The name of a rule that ended a transaction. It stands apart from its reply, so that the other replies, which are
/// made and moved at each line, are small.
pub struct RuleName {
    name: Box<Name>,
}

impl Drop for RuleName {
    fn drop(self) {
        let Self { name: _ } = self;
    }
}

impl Model for RuleName {
    ghost use Rattle.std.specs.Prelude.{List, ℕ};
    ghost use Rattle.std.specs.Box.{box_value};

    ghost Value = { List ℕ };

    ghost view = { λ r. box_value r.name };
}

impl RuleName {
    /// This name. Error: out of memory.
    pub fn new(alloc: Global, name: Name) -> Result<RuleName, AllocError>
        ensures { IfOk result (λ kept. kept ≡ name) }
    {
        Ok(RuleName {
            name: Box::new(alloc, name)?,
        })
    }

    /// The name itself.
    pub fn name(&self) -> &Name
        ensures { result.now ≡ self.now }
    {
        let name: &Name = &self.name;
        name
    }
}

/// Why a rule failed, apart from its reply as its name is.
#[derive(Drop)]
pub struct RuleError {
    refusal: Box<Refusal>,
}

impl Model for RuleError {
    ghost use Rattle.std.specs.Box.{box_value};
    ghost use Rattle.sb_value.specs.declared.refusal.Refusal.{Refusal as ItsRefusal};

    ghost Value = { ItsRefusal };

    ghost view = { λ e. box_value e.refusal };
}

impl RuleError {
    /// This refusal.
    pub fn new(alloc: Global, refusal: Refusal) -> Result<RuleError, AllocError>
        ensures { IfOk result (λ kept. kept ≡ refusal) }
    {
        Ok(RuleError {
            refusal: Box::new(alloc, refusal)?,
        })
    }

    /// The refusal itself.
    pub fn refusal(&self) -> &Refusal
        ensures { result.now ≡ self.now }
    {
        let refusal: &Refusal = &self.refusal;
        refusal
    }
}

/// The answer to a command.
pub enum Reply {
    Ok,
    /// The number of changes.
    Count(u64),
    Rows(SharedRows),
    Done(NamedTrace),
    ByRule(RuleName, NamedTrace),
    ByError(RuleName, RuleError, NamedTrace),
    ByLimit(NamedTrace),
    No(Refusal),
}

impl Drop for Reply {
    fn drop(self) {
        match self {
            Self::Ok => {}
            Self::Count(_) => {}
            Self::Rows(_) => {}
            Self::Done(_) => {}
            Self::ByRule(_, _) => {}
            Self::ByError(_, _, _) => {}
            Self::ByLimit(_) => {}
            Self::No(_) => {}
        }
    }
}

impl Reply {
    /// Another copy of it. Both share the rows and the trace. Error: out of memory.
    pub fn share(&self, alloc: Global) -> Result<Reply, AllocError>
        ensures { IfOk result (λ copy. copy ≡ self.now) }
    {
        match self {
            Reply::Ok => Ok(Reply::Ok),
            Reply::Count(changes) => Ok(Reply::Count(*changes)),
            Reply::Rows(rows) => Ok(Reply::Rows(rows.share()?)),
            Reply::Done(trace) => Ok(Reply::Done(trace.share()?)),
            Reply::ByRule(rule, trace) => {
                let name = RuleName::new(alloc, *rule.name())?;
                Ok(Reply::ByRule(name, trace.share()?))
            }
            Reply::ByError(rule, error, trace) => {
                let name = RuleName::new(alloc, *rule.name())?;
                let refusal = RuleError::new(alloc, *error.refusal())?;
                Ok(Reply::ByError(name, refusal, trace.share()?))
            }
            Reply::ByLimit(trace) => Ok(Reply::ByLimit(trace.share()?)),
            Reply::No(refusal) => Ok(Reply::No(*refusal)),
        }
    }
}

/// A reply with the number of its step, if it was one.
pub struct Answer {
    /// The number of this step among the tenant's steps, from 1.
    pub number: Option<u32>,
    pub reply: Reply,
}

impl Drop for Answer {
    fn drop(self) {
        let Self {
            number: _,
            reply: _,
        } = self;
    }
}

/// A step of the trail.
pub struct Entry {
    pub session: SessionId,
    pub line: Line,
    pub reply: Reply,
}

impl Drop for Entry {
    fn drop(self) {
        let Self {
            session: _,
            line: _,
            reply: _,
        } = self;
    }
}
