//! The program: lines of standard input answered on standard output, or a server on a port.
#![tactic(auto)]

mod fault;
mod host_end;
mod journal_check;
mod journaled_server;
mod keys;
mod parse;
mod part_faults;
mod program;
mod refusal_lines;
mod replay;
mod run;
mod run_report;
mod server;
mod server_context;
mod server_end;
mod system;
mod terms;

use crate::program::command;
use crate::run_report::Console;
use sb_wire::{Fallible, StreamError};
use std::fs::File;
use std::io::IsTerminal as _;
use std::net::{TcpListener, TcpStream};
use std::process::ExitCode;
use std::{env, io};

/// The status of a fault.
const FAULT: u8 = 1;

/// The status where the words can't be read.
const BAD_WORDS: u8 = 2;

fn main(rt: HostRuntime) -> ExitCode {
    let given = match env::args(&rt) {
        Ok(given) => given,
        Err(error) => return unread(&rt, error.kind() == io::ErrorKind::OutOfMemory),
    };
    let Ok(words) = given.collect::<Vec<String>>(rt.alloc()) else {
        return unread(&rt, true);
    };
    // for the proof of the call: what files and sockets such a system has
    let _kinds: Option<(File, TcpListener, TcpStream)> = None;
    let mut reader = Fallible { inner: rt.reader() };
    let mut writer = Fallible {
        inner: io::writer(&rt),
    };
    let stderr = rt.stderr();
    let mut errors = Console {
        is_terminal: stderr.is_terminal(),
        sink: Fallible { inner: stderr },
    };
    ExitCode::from(command(
        &rt,
        rt.alloc(),
        words.as_slice(),
        &mut reader,
        &mut writer,
        &mut errors,
    ))
}

/// Tells why there are no words: memory ran out, or one of them isn't text.
fn unread(rt: &HostRuntime, lacks_memory: bool) -> ExitCode {
    // a standard error that takes nothing can't be told of
    if lacks_memory {
        let _told = eprintln!(rt; "fault: {}", StreamError::NoMemory);
        return ExitCode::from(FAULT);
    }
    let _told = eprintln!(rt; "error: a word isn't text");
    ExitCode::from(BAD_WORDS)
}
