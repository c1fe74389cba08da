//! The program's standard input, whose end may stop a server.

use mio::unix::SourceFd;
use mio::{Interest, Registry, Token};

const INPUT: i32 = 0;

/// Bytes of the input are read and dropped, so many at a time.
const PIECE: usize = 4096;

/// Registers the standard input for events. True if the input ends by itself: a file can't be waited for.
pub(crate) fn watch_input(registry: &Registry, token: Token) -> bool {
    registry
        .register(&mut SourceFd(&INPUT), token, Interest::READABLE)
        .is_err()
}

/// True if the input, which is ready, has ended. If not, it is registered again.
pub(crate) fn has_ended(registry: &Registry, token: Token) -> bool {
    let mut piece = [0u8; PIECE];
    if libc::read(INPUT, &mut piece) <= 0 {
        return true;
    }
    registry
        .reregister(&mut SourceFd(&INPUT), token, Interest::READABLE)
        .is_err()
}
