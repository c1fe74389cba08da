//! The text of rows.
ghost use Rattle.std.specs.Prelude.{◌≡◌, ◌++◌, OnOk, OnErr};
ghost use Rattle.sb_tenant.specs.declared.reply.Reply.TheVariants as reply;
ghost use Rattle.sb_wire.specs.ReplyText.{reply_lines};
ghost use Rattle.sb_wire.specs.Written.{IsInFront, started_lines};

use crate::words::push_counted;
use sb_rows::SharedRows;
use std::alloc::AllocError;

/// The number of the rows, and these.
pub(crate) fn push_rows(
    out: &mut Vec<u8>,
    start: &[u8],
    rows: &SharedRows,
) -> Result<(), AllocError>
    ensures ok { OnOk result (out.new.items ≡
        out.old.items ++ started_lines start.now (reply_lines (reply.Rows rows.now))) }
    ensures err { OnErr result (IsInFront out.old.items out.new.items) }
{
    push_counted(out, start, b"rows", rows.len() as u64)?;
    rows.write_lines(start, out)?;
    Ok(())
}
