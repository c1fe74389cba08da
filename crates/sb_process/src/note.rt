//! A consideration with its verdict in the trace.
ghost use Rattle.std.specs.Prelude.{◌≡◌, ◌≢◌, ◌<◌, ◌++◌, ◌∷◌, [], IfOk, OnOk, OnErr, vec_len, vec_capacity};
ghost use Rattle.sb_process.specs.Consider as spec;
ghost use Rattle.sb_process.specs.Leaves.{HasRoom, Leaves};
ghost use Rattle.sb_process.specs.Running.{ComesTo, Notes, outcome_noted, verdict_noted};
ghost use Rattle.sb_process.specs.Work.{CanRunRule, EachWork, GoesOn, IsAtWork};

use crate::Outcome;
use crate::consider::{Chosen, Consideration};
use crate::database::Database;
use crate::process::Rules;
use sb_rawlog::ChangeLog;
use sb_value::{Refusal, RuleId, Verdict};
use std::alloc::{AllocError, Global};

impl Database {
    /// Considers a rule and notes the verdict. The answer is the outcome, where processing ends with it.
    pub(crate) fn consider_noted<L: ChangeLog>(
        &mut self,
        alloc: Global,
        log: &mut L,
        rules: &Rules<'_>,
        chosen: &Chosen<'_>,
        trace: &mut Vec<(RuleId, Verdict)>,
    ) -> Result<Option<Outcome>, AllocError>
        requires running { IsAtWork self.old chosen.now.session (L.records log.old) (L.clock log.old) rules.now }
        requires rule { CanRunRule self.old.tables chosen.now.rule.now }
        requires room { HasRoom 32768 (L.clock log.old) self.old.tables }
        ensures noted { EachWork self.old chosen.now.session (L.records log.old) (L.clock log.old) rules.now
            (λ origin setting progress. IfOk result (λ o.
            Notes (ComesTo origin self.new chosen.now.session (L.records log.new) (L.clock log.new) setting progress)
            chosen.now.rule.now.id progress (spec.consider setting chosen.now.rule.now progress)
            trace.old.items trace.new.items o)) }
        ensures under_way { GoesOn self.old self.new chosen.now.session rules.now
            (L.records log.old) (L.records log.new) (L.clock log.old) (L.clock log.new) }
        ensures leaves { Leaves 32768 self.old self.new chosen.now.session
            (L.records log.old) (L.records log.new) (L.clock log.old) (L.clock log.new) }
    {
        if trace.reserve(1).is_err() {
            return Err(AllocError);
        }
        let considered = self.consider(alloc, log, rules, chosen);
        note(trace, chosen.rule.id, considered)
    }
}

/// Notes the verdict, in the place that it has, and says how processing ends with it.
fn note(
    trace: &mut Vec<(RuleId, Verdict)>,
    rule: RuleId,
    considered: Result<Consideration, Refusal>,
) -> Result<Option<Outcome>, AllocError>
    requires { vec_len trace.old < vec_capacity trace.old }
    ensures outcome { IfOk result (λ o. o ≡ outcome_noted rule considered) }
    ensures verdict { OnOk result (trace.new.items ≡ trace.old.items ++ (rule, verdict_noted considered) ∷ []) }
    ensures had_memory { OnOk result (considered ≢ Err Refusal.NoMemory) }
    ensures no_memory { OnErr result (considered ≡ Err Refusal.NoMemory) }
{
    match considered {
        Ok(Consideration::False) => {
            trace.push_reserved((rule, Verdict::False));
            Ok(None)
        }
        Ok(Consideration::True) => {
            trace.push_reserved((rule, Verdict::True));
            Ok(None)
        }
        Ok(Consideration::RolledBack) => {
            trace.push_reserved((rule, Verdict::True));
            Ok(Some(Outcome::ByRule(rule)))
        }
        Err(Refusal::NoMemory) => Err(AllocError),
        Err(refusal) => {
            trace.push_reserved((rule, Verdict::Error));
            Ok(Some(Outcome::ByError(rule, refusal)))
        }
    }
}
