//! A block as lines of several tenants on one cell, with what the log and the index that they share
//! hold.

use crate::block::ScriptBlock;
use crate::fault::ScriptFault;
use crate::repeat::push_number;
use crate::stream::{fresh_cell, push_end};
use sb_cell::Cell;
use sb_rawlog::ChangeLog as _;
use sb_value::{
    ChangeKind, RULE_LIMIT, RuleId, RuleSet, SessionId, TENANT_LIMIT, TableId, TenantId, Who,
};
use sb_wire::{Summary, run_stream};
use std::alloc::{AllocError, Global};

/// Adds the replies to these lines, and behind each how many changes open transactions have. At the end come the rows
/// that session 0 of each tenant has inserted into its first table since it began its transaction, each as its time and
/// the rules that it may trigger. Error: out of memory.
pub fn play_shared(
    alloc: Global,
    block: ScriptBlock<'_>,
    out: &mut Vec<u8>,
) -> Result<(), ScriptFault> {
    let ScriptBlock { header, lines } = block;
    let mut cell = fresh_cell(alloc, header)?;
    play_lines(alloc, &mut cell, lines, out)
}

fn play_lines(
    alloc: Global,
    cell: &mut Cell,
    lines: &[u8],
    out: &mut Vec<u8>,
) -> Result<(), ScriptFault> {
    let mut summary = Summary::new();
    for line in lines.split(|byte| *byte == b'\n') {
        if !line.is_empty() {
            let mut reader: &[u8] = line;
            let ended = run_stream(alloc, &mut reader, out, cell, &mut summary);
            push_end(ended, out)?;
            push_line("log ", cell.log_len() as u64, out)?;
        }
    }
    for number in 0..TENANT_LIMIT {
        push_inserts(cell, TenantId::new(number as u8), out)?;
    }
    Ok(())
}

/// Adds the times of a tenant's inserts, and the rules that each may trigger.
fn push_inserts(cell: &Cell, tenant: TenantId, out: &mut Vec<u8>) -> Result<(), AllocError> {
    let who = Who {
        tenant,
        session: SessionId::new(0),
    };
    for (time, change) in cell
        .log()
        .by_op(who, TableId::new(0), ChangeKind::Inserted, 0)
    {
        push_number(u64::from(tenant.number()), out)?;
        push_line(" insert at ", time, out)?;
        push_rules(cell.index().candidates(change), out)?;
    }
    Ok(())
}

/// Adds a line for each rule of a set.
fn push_rules(rules: RuleSet, out: &mut Vec<u8>) -> Result<(), AllocError> {
    for number in 0..RULE_LIMIT {
        if rules.contains(RuleId::new(number as u8)) {
            push_line("rule ", number as u64, out)?;
        }
    }
    Ok(())
}

fn push_line(words: &str, number: u64, out: &mut Vec<u8>) -> Result<(), AllocError> {
    out.extend_from_slice(words.as_bytes())?;
    push_number(number, out)?;
    out.push(b'\n')?;
    Ok(())
}
