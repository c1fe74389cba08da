//! Plays scripts, blocks of lines below a header, and writes what each line is answered.
//!
//! A header is `# name setting=value ..`; its words without `=` say what the block shows. The lines
//! below it, up to the next header, are commands:
//!
//! - of a stream on a fresh cell, as a client sends them. `tenants=2`, `bound=3`, `work=500` and
//!   `buckets=1` say of which cell, `pieces=7` that a read gives at most 7 bytes, `cut=1` that the last byte isn't
//!   sent, `fails=30` that reads fail behind 30 bytes, `room=6` that the writer has room for 6 bytes,
//!   and `each=fails` or `each=room` that the block is played for each number below that one. With
//!   `each=reads` it is played with each read failing in turn, with `each=writes` as it is and then
//!   with each smaller room, where a play counts that has just so much of the whole answer;
//! - with `lines=tenant`, of session 0 of one tenant by itself, as `tenant` shows it;
//! - with `lines=shared`, of a stream, with what the tenants' log and index hold, as `shared` shows it;
//! - with `lines=syntax`, texts that are read as commands, as `syntax` shows them;
//! - with `lines=memory`, numbers of the refusals that come where memory runs out.
//!
//! A line without a byte stands between blocks and is no command. `*65 LINE` is 65 such lines, of
//! which `{#}` is the number, from 0 on, and `%LINE` one for each reserved word, which stands for
//! `{%}` there. Within a line `{40|TEXT}` is that text 40 times, `{byte 13}` the byte 13, and
//! `{bytes 128}` the byte 128 in the first of several lines, 129 in the second and so on. An answer
//! of more than nine equal lines in a row has one of them and their number.
#![tactic(auto)]

mod block;
mod ends;
mod fault;
mod header;
mod memory;
mod player;
mod repeat;
mod shared;
mod stream;
mod syntax;
mod tenant;

use fault::ScriptFault;
use player::ScriptPlayer;
use sb_wire::StreamError;
use std::io::{self, Read as _, Write as _};
use std::process::ExitCode;

/// The status of a run that ends early.
const FAULT: u8 = 2;

fn main(rt: HostRuntime) -> ExitCode {
    match run(&rt) {
        Ok(()) => ExitCode::SUCCESS,
        Err(fault) => {
            // a standard error that takes nothing can't be told of
            let _told = eprintln!(rt; "fault: {fault}");
            ExitCode::from(FAULT)
        }
    }
}

/// Plays the scripts of standard input.
fn run(rt: &HostRuntime) -> Result<(), ScriptFault> {
    let mut input = Vec::new(rt.alloc());
    if rt.reader().read_to_end(&mut input).is_err() {
        return Err(ScriptFault::Stream(StreamError::ReadFault));
    }
    let mut player = ScriptPlayer::new(rt.alloc());
    player.play_all(input.as_slice())?;
    if io::writer(rt).write_all(player.answers()).is_err() {
        return Err(ScriptFault::Stream(StreamError::WriteFault));
    }
    Ok(())
}
