//! The rows of a reply.
ghost use Rattle.std.specs.Prelude.{◌≡◌, [], ◌++◌, ◌↔◌, length, IfOk, IsTrue, OnOk, OnErr};
ghost use Rattle.sb_rows.specs.RowText.{rows_text, started_rows, IsInFront};

use crate::lines::push_lines;
use crate::row_text::RowText;
use std::alloc::{AllocError, Global};
use std::marker::Model;
use std::sync::Arc;

/// The rows of a `select`, which are one text. Its copies share it.
pub struct SharedRows {
    rows: Arc<RowText>,
}

impl Drop for SharedRows {
    fn drop(self) {
        let Self { rows: _ } = self;
    }
}

impl Model for SharedRows {
    ghost use Rattle.std.specs.Prelude.{◌≡◌, List, []};
    ghost use Rattle.std.specs.Arc.{arc_value};
    ghost use Rattle.sb_value.specs.declared.value.Value.{Value as Item};

    ghost Value = { List (List Item) };

    ghost view = { λ r. (arc_value r.rows).rows };

    ghost invariant = { λ r. (arc_value r.rows).begun ≡ [] };
}

impl SharedRows {
    /// These rows, to be shared. They keep no more room than they need. Error: out of memory.
    pub fn new(alloc: Global, rows: RowText) -> Result<SharedRows, AllocError>
        requires closed { rows.begun ≡ [] }
        ensures { IfOk result (λ shared. shared ≡ rows.rows) }
    {
        let mut rows = rows;
        rows.fit();
        Ok(SharedRows {
            rows: Arc::new(alloc, rows)?,
        })
    }

    /// The number of rows.
    pub fn len(&self) -> usize
        ensures { result ≡ length self.now }
    {
        self.rows.len()
    }

    /// The text of the rows, a line for each.
    pub fn text(&self) -> &[u8]
        ensures { result.now ≡ rows_text self.now }
    {
        self.rows.text()
    }

    /// Adds the rows' lines, each behind the same bytes. Error: out of memory.
    pub fn write_lines(&self, start: &[u8], out: &mut Vec<u8>) -> Result<(), AllocError>
        ensures ok { OnOk result (out.new.items ≡ out.old.items ++ started_rows start.now self.now) }
        ensures err { OnErr result (IsInFront out.old.items out.new.items) }
    {
        if start.is_empty() {
            out.extend_from_slice(self.rows.text())
        } else {
            push_lines(&self.rows, start, out)
        }
    }

    /// Another reference to the same rows. Error: out of memory.
    pub fn share(&self) -> Result<SharedRows, AllocError>
        ensures { IfOk result (λ shared. shared ≡ self.now) }
    {
        Ok(SharedRows {
            rows: self.rows.clone()?,
        })
    }

    /// True if the two are the same rows.
    pub fn is_same(&self, other: &SharedRows) -> bool
        ensures { IsTrue result ↔ (self.now ≡ other.now) }
    {
        self.rows.is_same(&other.rows)
    }
}
