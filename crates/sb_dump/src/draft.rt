//! A script that is being written.

use crate::script::Script;
use sb_syntax::COMMAND_LIMIT;
use sb_tenant::Line;
use sb_value::{Value, print_value};
use std::alloc::{AllocError, Global};

/// How long a line gets where what it lists can go on in the next one. It leaves place for two numbers in front.
const PACKED: usize = COMMAND_LIMIT - 16;

/// The lines so far, and the text of the one that is being written.
#[derive(Drop)]
pub(crate) struct Draft {
    alloc: Global,
    lines: Vec<Line>,
    text: Vec<u8>,
}

impl Draft {
    /// No line.
    pub(crate) fn new(alloc: Global) -> Draft {
        Draft {
            alloc,
            lines: Vec::new(alloc),
            text: Vec::new(alloc),
        }
    }

    /// How long the line is so far.
    pub(crate) fn len(&self) -> usize {
        self.text.as_slice().len()
    }

    /// True if the line is empty so far.
    pub(crate) fn is_empty(&self) -> bool {
        self.text.as_slice().is_empty()
    }

    /// True if so many bytes more fit into the line where it can go on in the next one.
    pub(crate) fn has_room(&self, more: usize) -> bool {
        self.len().saturating_add(more) <= PACKED
    }

    /// Puts bytes at the end of the line.
    pub(crate) fn put(&mut self, bytes: &[u8]) -> Result<(), AllocError> {
        self.text.extend_from_slice(bytes)
    }

    /// Puts a number at the end of the line.
    pub(crate) fn put_number(&mut self, number: u32) -> Result<(), AllocError> {
        print_value(&Value::Int(i64::from(number)), &mut self.text)
    }

    /// Puts a value at the end of the line.
    pub(crate) fn put_value(&mut self, value: &Value) -> Result<(), AllocError> {
        print_value(value, &mut self.text)
    }

    /// Ends the line.
    pub(crate) fn end(&mut self) -> Result<(), AllocError> {
        let line = Line::new(self.alloc, self.text.as_slice())?;
        self.lines.push(line)?;
        self.text.clear();
        Ok(())
    }

    /// Writes these words into a line of their own.
    pub(crate) fn line(&mut self, words: &[&[u8]]) -> Result<(), AllocError> {
        for word in words {
            self.put(*word)?;
        }
        self.end()
    }

    /// The lines that were ended.
    pub(crate) fn finish(self) -> Script {
        let Draft { lines, .. } = self;
        Script { lines }
    }
}
