//! Plays blocks one after another.

use crate::block::ScriptBlock;
use crate::fault::ScriptFault;
use crate::header::{BlockKind, Header};
use crate::memory::play_memory;
use crate::repeat::{push_folded, push_lines};
use crate::shared::play_shared;
use crate::stream::play_stream;
use crate::syntax::play_syntax;
use crate::tenant::play_tenant;
use std::alloc::Global;

/// The block that is being read, and the answers so far.
#[derive(Drop)]
pub struct ScriptPlayer {
    alloc: Global,
    header: Option<Header>,
    commands: Vec<u8>,
    answers: Vec<u8>,
}

impl ScriptPlayer {
    pub fn new(alloc: Global) -> ScriptPlayer {
        ScriptPlayer {
            alloc,
            header: None,
            commands: Vec::new(alloc),
            answers: Vec::new(alloc),
        }
    }

    /// The headers, each with the answers to its lines.
    pub fn answers(&self) -> &[u8] {
        self.answers.as_slice()
    }

    /// Plays the blocks of an input. Error: the first fault of the input or the output.
    pub fn play_all(&mut self, input: &[u8]) -> Result<(), ScriptFault> {
        for line in input.split(|byte| *byte == b'\n') {
            self.take(line)?;
        }
        self.play()
    }

    fn take(&mut self, line: &[u8]) -> Result<(), ScriptFault> {
        if line.is_empty() {
            return Ok(());
        }
        if line.starts_with(b"#".as_slice()) {
            return self.begin(line);
        }
        push_lines(line, &mut self.commands)
    }

    /// Plays the block before a header, and begins the header's.
    fn begin(&mut self, line: &[u8]) -> Result<(), ScriptFault> {
        self.play()?;
        self.header = Some(Header::read(line)?);
        self.answers.extend_from_slice(line)?;
        self.answers.push(b'\n')?;
        Ok(())
    }

    /// Plays the block that was read, if there is one.
    fn play(&mut self) -> Result<(), ScriptFault> {
        let Some(header) = self.header else {
            return if self.commands.is_empty() {
                Ok(())
            } else {
                Err(ScriptFault::NoHeader)
            };
        };
        let mut text = Vec::new(self.alloc);
        let commands = self.commands.as_slice();
        let block = ScriptBlock {
            header,
            lines: commands,
        };
        match header.lines {
            BlockKind::Stream => play_stream(self.alloc, block, &mut text)?,
            BlockKind::Syntax => play_syntax(self.alloc, commands, &mut text)?,
            BlockKind::Memory => play_memory(commands, &mut text)?,
            BlockKind::Tenant => play_tenant(self.alloc, commands, &mut text)?,
            BlockKind::Shared => play_shared(self.alloc, block, &mut text)?,
        }
        self.commands.clear();
        push_folded(text.as_slice(), &mut self.answers)
    }
}
