//! The line that tells a summary.
ghost use Rattle.std.specs.Prelude.{◌≡◌, ◌++◌, length, map, OnOk};
ghost use Rattle.sb_wire.specs.Counts.{count_part, count_parts, of_command, of_wire, refusals, summary_line, totals_line};

use crate::refusal::WireRefusal;
use crate::summary::Summary;
use crate::words::{push_labelled, push_word};
use sb_value::{Name, Refusal};
use std::alloc::AllocError;

/// Adds the line of a summary. Error: out of memory.
pub fn write_summary(out: &mut Vec<u8>, summary: &Summary) -> Result<(), AllocError>
    ensures { OnOk result (out.new.items ≡ out.old.items ++ summary_line summary.now) }
{
    push_labelled(out, b"lines ", summary.lines)?;
    push_labelled(out, b", steps ", summary.steps)?;
    push_refusals(out, &summary.refused)?;
    out.push(b'\n')?;
    Ok(())
}

/// Adds the line that tells how many trails there are, and how many steps they have together. Error: out of memory.
pub fn write_totals(out: &mut Vec<u8>, trails: u64, steps: u64) -> Result<(), AllocError>
    ensures { OnOk result (out.new.items ≡ out.old.items ++ totals_line trails steps) }
{
    push_labelled(out, b"trails ", trails)?;
    push_labelled(out, b" steps ", steps)?;
    out.push(b'\n')?;
    Ok(())
}

/// The refusals that came, in the order of their numbers.
fn push_refusals(out: &mut Vec<u8>, counts: &[u64]) -> Result<(), AllocError>
    requires { length counts.now ≡ 256 }
    ensures { OnOk result (out.new.items ≡ out.old.items ++ count_parts counts.now refusals) }
{
    push_commands(out, counts, &[Refusal::Syntax])?;
    push_lines(
        out,
        counts,
        &[
            WireRefusal::TooLong,
            WireRefusal::BadLine,
            WireRefusal::NoTenant,
            WireRefusal::NoSession,
        ],
    )?;
    push_commands(
        out,
        counts,
        &[
            Refusal::NoTable,
            Refusal::TableExists,
            Refusal::NoColumn,
            Refusal::BadType,
            Refusal::Ambiguous,
            Refusal::WrongCount,
            Refusal::BadTransition,
            Refusal::Overflow,
            Refusal::TooBig,
            Refusal::TooManyRows,
            Refusal::Locked(Name::new(b"t")),
            Refusal::InTransaction,
            Refusal::NoTransaction,
            Refusal::Busy,
            Refusal::NotOpen,
            Refusal::AlreadyOpen,
            Refusal::NoRule,
            Refusal::RuleExists,
            Refusal::Cycle,
            Refusal::TooManyRules,
            Refusal::NoRuleset,
            Refusal::RulesetExists,
            Refusal::TooManyRulesets,
            Refusal::TableInUse,
            Refusal::TooManyTables,
            Refusal::TrailFull,
            Refusal::NoMemory,
        ],
    )?;
    push_lines(out, counts, &[WireRefusal::NotBegun])?;
    Ok(())
}

/// The refusals of commands that came.
fn push_commands(out: &mut Vec<u8>, counts: &[u64], refusals: &[Refusal]) -> Result<(), AllocError>
    requires { length counts.now ≡ 256 }
    ensures { OnOk result (out.new.items ≡
        out.old.items ++ count_parts counts.now (map of_command refusals.now)) }
{
    for refusal in refusals {
        let (number, name) = refusal.number_and_name();
        push_count_of(out, counts[usize::from(number)], number, name)?;
    }
    Ok(())
}

/// The refusals of lines that came.
fn push_lines(out: &mut Vec<u8>, counts: &[u64], refusals: &[WireRefusal]) -> Result<(), AllocError>
    requires { length counts.now ≡ 256 }
    ensures { OnOk result (out.new.items ≡
        out.old.items ++ count_parts counts.now (map of_wire refusals.now)) }
{
    for refusal in refusals {
        let (number, name) = refusal.number_and_name();
        push_count_of(out, counts[usize::from(number)], number, name)?;
    }
    Ok(())
}

/// How often a refusal came, if it did.
fn push_count_of(out: &mut Vec<u8>, count: u64, number: u8, name: &str) -> Result<(), AllocError>
    ensures { OnOk result (out.new.items ≡
        out.old.items ++ count_part count (number, name.now)) }
{
    if count == 0 {
        return Ok(());
    }
    push_labelled(out, b", no ", u64::from(number))?;
    push_word(out, name.as_bytes())?;
    push_labelled(out, b": ", count)
}
