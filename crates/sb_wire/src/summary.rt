//! What a stream has answered, in numbers.
ghost use Rattle.std.specs.Prelude.{◌≡◌, ◌<◌, ℕ, [], ◌∷◌, true, slice_index};
ghost use Rattle.sb_wire.specs.Lines.{Addressed as ItsAddressed};
ghost use Rattle.sb_wire.specs.Counts.{Adds, IsSummary, line_refusal, one_more, step_reply};
ghost use Rattle.sb_wire.specs.Counts as counts;

use crate::refusal::WireRefusal;
use sb_cell::StepError;
use sb_tenant::{Answer, Reply};

/// A number for each byte, so that each refusal's number is below it.
const NUMBERS: usize = 256;

/// How many lines were answered, how many of them as steps, and how often with each refusal. A count
/// that is full stays.
#[derive(Drop)]
pub struct Summary {
    pub lines: u64,
    pub steps: u64,
    /// By the refusal's number.
    pub refused: [u64; NUMBERS],
}

impl Summary {
    /// Before the first line.
    pub fn new() -> Summary
        ensures { IsSummary [] result }
    {
        Summary {
            lines: 0,
            steps: 0,
            refused: [0; NUMBERS],
        }
    }

    /// Counts a line that is refused as it stands.
    pub(crate) fn add_refusal(&mut self, refusal: WireRefusal)
        ensures { Adds self.old (line_refusal refusal ∷ []) self.new }
    {
        self.add(Some(refusal.number()), false);
    }

    /// Counts a line by what its session was answered.
    pub(crate) fn add_answer(&mut self, given: &Result<Answer, StepError>)
        ensures { (line : ItsAddressed) → Adds self.old (step_reply line given.now ∷ []) self.new }
    {
        self.add(refusal_given(given), has_number(given));
    }

    /// Counts a line that is answered with this refusal, or with none, and that is a step or isn't.
    fn add(&mut self, refusal: Option<u8>, is_step: bool)
        ensures lines { self.new.lines ≡ one_more true self.old.lines }
        ensures steps { self.new.steps ≡ one_more is_step self.old.steps }
        ensures refused { (n : ℕ) → n < 256 → slice_index self.new.refused n ≡
            one_more (counts.is_number n refusal) (slice_index self.old.refused n) }
    {
        self.lines = self.lines.saturating_add(1);
        self.steps = stepped(self.steps, is_step);
        if let Some(number) = refusal {
            let place = usize::from(number);
            self.refused[place] = self.refused[place].saturating_add(1);
        }
    }
}

/// The steps so far, with one more where there is one.
fn stepped(steps: u64, is_step: bool) -> u64
    ensures { result ≡ one_more is_step steps }
{
    if is_step {
        steps.saturating_add(1)
    } else {
        steps
    }
}

/// True if what a line was given has a number in the trail.
fn has_number(given: &Result<Answer, StepError>) -> bool
    ensures { result ≡ counts.has_number given.now }
{
    match given {
        Ok(answer) => answer.number.is_some(),
        Err(_) => false,
    }
}

/// The number of the refusal that an answer says, if it says one.
fn refusal_given(given: &Result<Answer, StepError>) -> Option<u8>
    ensures { result ≡ counts.refusal_given given.now }
{
    match given {
        Ok(answer) => refusal_said(&answer.reply),
        Err(StepError::NoTenant) => Some(WireRefusal::NoTenant.number()),
        Err(StepError::NoSession) => Some(WireRefusal::NoSession.number()),
        Err(StepError::NotBegun) => Some(WireRefusal::NotBegun.number()),
    }
}

fn refusal_said(reply: &Reply) -> Option<u8>
    ensures { result ≡ counts.refusal_said reply.now }
{
    match reply {
        Reply::No(refusal) => Some(refusal.number()),
        _ => None,
    }
}
