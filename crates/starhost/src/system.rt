//! What the program asks of the system.

use sb_durable::SegmentStorage;
use std::fs::File;
use std::net::{Net, TcpListener, TcpStream};
use std::rt::{Clock, Env, Files};
use std::sync::Wait;
use std::thread::Threads;

/// A system with threads, sockets, files, a clock, an environment, a heap and a standard error. What makes segments of a
/// journal is named beside files, since it may go to another thread.
pub trait System: Threads
    + Wait
    + Net<Listener = TcpListener, Stream = TcpStream>
    + Eprint
    + Clock
    + Env
    + Alloc
    + Clone
    + Drop
    + Files<File = File>
    + SegmentStorage {}

impl<
    T: Threads
        + Wait
        + Net<Listener = TcpListener, Stream = TcpStream>
        + Eprint
        + Clock
        + Env
        + Alloc
        + Clone
        + Drop
        + Files<File = File>
        + SegmentStorage,
> System for T {}
