//! A block of a script.

use crate::header::Header;

/// What its header says, and the lines below it.
#[derive(Clone, Copy)]
pub struct ScriptBlock<'b> {
    pub header: Header,
    pub lines: &'b [u8],
}

impl<'b> ScriptBlock<'b> {
    /// Its lines below another header.
    pub fn below(self, header: Header) -> ScriptBlock<'b> {
        ScriptBlock {
            header,
            lines: self.lines,
        }
    }
}
