//! The rows of a reply as messages.
ghost use Rattle.std.specs.Prelude.{◌≡◌, ◌++◌, ◌≤◌, List, IfOk, OnOk, length, map, Some, option_copied};
ghost use Rattle.sb_postgres.specs.Answers.{Answered, DataRow, sent};
ghost use Rattle.sb_frontend.specs.Cells.{WritesTo};
ghost use Rattle.sb_frontend.specs.Outputs.{written};
ghost use Rattle.sb_frontend.specs.Rows.{RowsTold};

use crate::cell::read_row;
use sb_postgres::{MessageWriter, ServerMessage, WriteError};
use sb_rows::SharedRows;
use std::alloc::{AllocError, Global};

/// The texts as values of a message.
fn lent(alloc: Global, cells: &[Vec<u8>]) -> Result<Vec<Option<&[u8]>>, AllocError>
    ensures { IfOk result (λ v. map option_copied v.items ≡ map (λ c. Some c.items) cells.now) }
{
    let mut values = Vec::new(alloc);
    for cell in cells {
        values.push(Some(cell.as_slice()))?;
    }
    Ok(values)
}

/// Adds the message of a row.
fn write_row(
    alloc: Global,
    writer: &mut MessageWriter,
    out: &mut Vec<u8>,
    cells: &[Vec<u8>],
) -> Result<(), WriteError>
    ensures ok { OnOk result (out.new.items ≡ out.old.items ++ sent (DataRow (map (λ c. Some c.items) cells.now))) }
    ensures grows { length out.old.items ≤ length out.new.items }
{
    let values = lent(alloc, cells)?;
    writer.write(out, &ServerMessage::DataRow(&values))
}

/// Adds a message for each of so many rows with which the text begins. What stands behind them.
fn write_rows_of<'a>(
    alloc: Global,
    writer: &mut MessageWriter,
    out: &mut Vec<u8>,
    text: &'a [u8],
    count: usize,
) -> Result<&'a [u8], WriteError>
    ensures ok { IfOk result (λ left. WritesTo count count text.now left.now out.old.items out.new.items) }
    ensures grows { length out.old.items ≤ length out.new.items }
{
    let mut left = text;
    for _row in 0..count {
        let (cells, behind) = read_row(alloc, left)?;
        write_row(alloc, writer, out, &cells)?;
        left = behind;
    }
    Ok(left)
}

/// Adds a message for each row of a reply.
pub(crate) fn write_rows(
    alloc: Global,
    writer: &mut MessageWriter,
    out: &mut Vec<u8>,
    rows: &SharedRows,
) -> Result<(), WriteError>
    ensures ok { OnOk result ((ms : List Answered) × (out.new.items ≡ out.old.items ++ written ms) × RowsTold rows.now ms) }
    ensures grows { length out.old.items ≤ length out.new.items }
{
    let _left = write_rows_of(alloc, writer, out, rows.text(), rows.len())?;
    Ok(())
}
